//! Numbers of headings and copies.

use crate::fault::Cause;
use std::str::FromStr;

/// The number that these bytes are.
pub fn number<N: FromStr>(digits: &[u8]) -> Result<N, Cause>
where
    <N as FromStr>::Err: Drop,
{
    let Ok(digits) = std::str::from_utf8(digits) else {
        return Err(Cause::BadNumber);
    };
    digits.parse().map_err(|_| Cause::BadNumber)
}
