// The five strings of a cube's text section: a walker that hands them out in turn. The functions over the walker are thin;
// what they do stands in functions on a slice and a place.
#![tactic(auto)]

ghost use Rattle.std.specs.Prelude.{◌≡◌, ◌≤◌, length, IfOk};
ghost use Rattle.record.specs.Answers.{verdict_of};
ghost use Rattle.strings.specs.Strings.{strings_verdict, text_in, end_of, string_at, turn_of, turn_in, place_of};
ghost use Rattle.strings.specs.Five.{FiveStrings};

use checks::{check11, check14_with};
use geometry::TEXT_START;
use record::{Record, Refusal};

// A walker over the strings of a text section: the section, and the place where the next string starts. It is the struct that the paper asks for
// (docs/DECISIONS.md, "Forms"), and no Iterator, since hosts are told of its calls by name.
#[derive(Clone, Copy)]
pub struct Strings<'a> {
    pub text: &'a [u8],
    pub at: usize,
}

// A string of a text: it goes from start up to, not including, end, and the next one starts at next.
#[derive(Clone, Copy)]
pub struct Item {
    pub start: usize,
    pub end: usize,
    pub next: usize,
}

// The text section of a cube, once checks 14 and 11 have passed. Opening cuts the same slice for check 11, after check 10 of a record that it has just
// worked out, and this one after check 14 of a record that is lent: what they share is four lines, and a function of them would ask for a bound of each.
fn text_of<'a>(file: &'a [u8], r: Record) -> Result<&'a [u8], Refusal>
    ensures verdict { verdict_of result ≡ strings_verdict r file.now }
    ensures text { IfOk result (λ text. text.now ≡ text_in r file.now) }
{
    if check14_with(r, file.len() as u64) {
        return Err(Refusal::Record);
    }
    let end = TEXT_START + r.text as usize;
    let text = &file[TEXT_START..end];
    if check11(text) {
        return Err(Refusal::Text);
    }
    Ok(text)
}

// Where the string at a place of a text ends: at the next zero byte.
fn end_at(text: &[u8], at: usize) -> usize
    requires { at ≤ length text.now }
    ensures end { result ≡ end_of text.now at }
    ensures inside { (at ≤ result) × (result ≤ length text.now) }
{
    match text[at..].iter().position(|byte| *byte == 0) {
        Some(n) => at + n,
        None => text.len(),
    }
}

// What stands at a place of a text: a string, or none past the text's last byte.
fn turn_at(text: &[u8], at: usize) -> Option<Item>
    ensures { result ≡ turn_of text.now at }
{
    if text.len() <= at {
        return None;
    }
    let end = end_at(text, at);
    Some(Item {
        start: at,
        end,
        next: end + 1,
    })
}

// The string at a place, without its zero; an empty part where there is none, as its definition says and as hosts are told of `string`.
fn part_at<'a>(text: &'a [u8], at: usize) -> &'a [u8]
    ensures { result.now ≡ string_at text.now at }
{
    match turn_at(text, at) {
        Some(item) => &text[item.start..item.end],
        None => &text[0..0],
    }
}

// The place after n turns from the start of a text; fewer where all strings are handed out before.
fn place_in(text: &[u8], n: u32) -> usize
    ensures { result ≡ place_of text.now n }
{
    let mut at = 0;
    for _ in 0..n {
        match turn_at(text, at) {
            Some(item) => at = item.next,
            None => return at,
        }
    }
    at
}

// What turn n of a cube hands out, from 0 on, as places of its text section; none once all strings are handed out.
pub fn turn_of(file: &[u8], r: Record, n: u32) -> Result<Option<Item>, Refusal>
    ensures { result ≡ turn_in r file.now n }
{
    let text = text_of(file, r)?;
    Ok(turn_at(text, place_in(text, n)))
}

// A walker at the start of the strings of a cube.
pub fn strings_of<'a>(file: &'a [u8], r: Record) -> Result<Strings<'a>, Refusal>
    ensures walk { verdict_of result ≡ strings_verdict r file.now }
    ensures start { IfOk result (λ w. (w.text.now ≡ text_in r file.now) × (w.at ≡ 0)) }
{
    let text = text_of(file, r)?;
    Ok(Strings { text, at: 0 })
}

// What the walker stands at. It goes on saying none after the last string. This and the two below are calls that hosts are told of by name, beside
// `strings_of`, and no methods.
pub fn next<'a>(w: Strings<'a>) -> Option<Item>
    ensures { result ≡ turn_of w.entry.text.now w.entry.at }
{
    turn_at(w.text, w.at)
}

// The string that the walker stands at, without its zero; an empty part where there is none.
pub fn string<'a>(w: Strings<'a>) -> &'a [u8]
    ensures { result.now ≡ string_at w.entry.text.now w.entry.at }
{
    part_at(w.text, w.at)
}

// The walker at another place: after a turn, at its next.
pub fn moved<'a>(w: Strings<'a>, at: usize) -> Strings<'a>
    ensures { (result.text ≡ w.entry.text) × (result.at ≡ at) }
{
    Strings { text: w.text, at }
}

// A text that passes check 11 is five strings, each followed by a zero; five turns hand them out, and then it hands out none.
pub fn five_strings()
    ensures { FiveStrings }
{}
