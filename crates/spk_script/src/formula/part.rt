//! The parts of a formula: its numbers, names, parentheses and operators.

ghost use Rattle.std.specs.Prelude.{◌≡◌, ◌<◌, ◌≤◌, length, take_while, IfOk};
ghost use Rattle.std.specs.Str.{IsAscii};
ghost use Rattle.spk_num.specs.Decimal.{millionths_of};
ghost use Rattle.spk_num.specs.Names.{is_name_byte};
ghost use Rattle.spk_script.specs.Formulas.{is_number_byte, number_of, name_of, variable_of, parts_of};
ghost use Rattle.spk_script.specs.Parts.{mark_of, token_at, length_at};

use crate::bytes::is_blank;
use spk_num::decimal::Dec;
use spk_num::name::{LONGEST_NAME, is_name_byte};
use spk_num::text::Text;
use std::alloc::{AllocError, Global};

/// An operator between two numbers. A minus may stand before one number too.
#[derive(Clone, Copy, Debug, PartialEq, Eq)]
pub enum Operator {
    Plus,
    Minus,
    Times,
    Over,
}

/// What a part of a formula is.
#[derive(Debug, Drop)]
pub enum Token {
    Number(Dec),
    /// The name of a variable.
    Name(Text),
    Open,
    Close,
    Sign(Operator),
    /// No part of a formula. Where one can stand, the byte at this offset is the first that can't.
    Broken(u32),
}

/// A part of a formula, and the offset of its first byte.
#[derive(Debug, Drop)]
pub struct Part {
    pub place: u32,
    pub token: Token,
}

fn is_number_byte(byte: u8) -> bool
    ensures { result ≡ is_number_byte byte }
{
    byte.is_ascii_digit() || byte == b'.'
}

/// How many letters, digits and `_` a text begins with.
fn name_length(text: &[u8]) -> usize
    ensures same { result ≡ length (take_while is_name_byte text.now) }
    ensures within { result ≤ length text.now }
{
    text.iter().take_while(|byte| is_name_byte(**byte)).count()
}

/// The letters, digits and `_` that a text begins with.
#[tactic(auto, using(crate::proofs::Parts::take_run, crate::proofs::Parts::names_are_ascii))]
fn name_run(text: &[u8]) -> &[u8]
    ensures same { result.now ≡ take_while is_name_byte text.now }
    ensures ascii { IsAscii result.now }
{
    &text[..name_length(text)]
}

/// How many digits and dots a text begins with.
fn number_length(text: &[u8]) -> usize
    ensures same { result ≡ length (take_while is_number_byte text.now) }
    ensures within { result ≤ length text.now }
{
    text.iter()
        .take_while(|byte| is_number_byte(**byte))
        .count()
}

/// The digits and dots that a text begins with.
#[tactic(auto, using(crate::proofs::Parts::take_run))]
fn number_run(text: &[u8]) -> &[u8]
    ensures { result.now ≡ take_while is_number_byte text.now }
{
    &text[..number_length(text)]
}

/// What a run of digits and dots is.
fn number_of(place: u32, run: &[u8]) -> Token
    ensures { result ≡ number_of place (millionths_of run.now) }
{
    match Dec::read(run) {
        Ok(number) => Token::Number(number),
        Err(_) => Token::Broken(place),
    }
}

/// What a run of letters, digits and `_` after `v_` is.
fn name_of(alloc: Global, place: u32, name: &[u8]) -> Result<Token, AllocError>
    requires ascii { IsAscii name.now }
    requires room { place ≤ 4097 }
    ensures { IfOk result (λ token. token ≡ name_of place name.now) }
{
    if name.is_empty() {
        return Ok(Token::Broken(place));
    }
    if name.len() > LONGEST_NAME {
        return Ok(Token::Broken(place + LONGEST_NAME as u32));
    }
    Ok(Token::Name(Text::from_ascii(alloc, name)?))
}

/// What begins with a `v`, by the text after it.
fn variable_of(alloc: Global, place: u32, text: &[u8]) -> Result<Token, AllocError>
    requires { place ≤ 4096 }
    ensures { IfOk result (λ token. token ≡ variable_of place text.now) }
{
    match text {
        [b'_', following @ ..] => name_of(alloc, place + 1, name_run(following)),
        _ => Ok(Token::Broken(place)),
    }
}

/// What a byte is by itself.
fn mark_of(place: u32, byte: u8) -> Token
    ensures { result ≡ mark_of place byte }
{
    match byte {
        b'(' => Token::Open,
        b')' => Token::Close,
        b'+' => Token::Sign(Operator::Plus),
        b'-' => Token::Sign(Operator::Minus),
        b'*' => Token::Sign(Operator::Times),
        b'/' => Token::Sign(Operator::Over),
        _ => Token::Broken(place),
    }
}

/// The part that a text begins with, at this place.
fn token_at(alloc: Global, place: u32, text: &[u8]) -> Result<Token, AllocError>
    requires { place < 4096 }
    ensures { IfOk result (λ token. token ≡ token_at place text.now) }
{
    let Some((first, following)) = text.split_first() else {
        return Ok(Token::Broken(place));
    };
    if is_number_byte(*first) {
        Ok(number_of(place, number_run(text)))
    } else if *first == b'v' {
        variable_of(alloc, place + 1, following)
    } else {
        Ok(mark_of(place, *first))
    }
}

/// How many bytes the part has that a text begins with.
fn length_at(text: &[u8]) -> usize
    ensures same { result ≡ length_at text.now }
    ensures within { result ≤ length text.now }
{
    let Some((first, following)) = text.split_first() else {
        return 0;
    };
    if is_number_byte(*first) {
        number_length(following) + 1
    } else if *first == b'v' {
        name_length(following) + 1
    } else {
        1
    }
}

/// The parts of a text, from the left. Blanks may stand between them.
pub fn parts_of(alloc: Global, text: &[u8]) -> Result<Vec<Part>, AllocError>
    requires { length text.now ≤ 4096 }
    ensures { IfOk result (λ parts. parts.items ≡ parts_of text.now) }
{
    let mut parts = Vec::new(alloc);
    let mut at = 0;
    while at < text.len() {
        if is_blank(text[at]) {
            at += 1;
        } else {
            let place = at as u32;
            let rest = &text[at..];
            let token = token_at(alloc, place, rest)?;
            parts.push(Part { place, token })?;
            at += length_at(rest);
        }
    }
    Ok(parts)
}
