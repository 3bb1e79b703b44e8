//! Tests of the sessions of `spk_run`. Nothing else stands here.
#![tactic(auto)]

#[cfg(test)]
mod tests;
