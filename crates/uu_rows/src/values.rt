// The columns of a row as typed values.
ghost use Rattle.std.specs.Prelude.{◌≡◌, ◌<◌, ◌^◌, ◌==◌, ℕ, List, IfOk, IfSome, pos, map, string_bytes, length, IsTrue, IsAscii, All, Option, None, Some};
ghost use Rattle.std.specs.List.{join_with_byte, slice_split};
ghost use Rattle.sqlite.specs.Order.{column};
ghost use Rattle.sqlite.specs.Values.{or_null};
ghost use Rattle.sqlite.specs.declared.types.Value.TheVariants.{Text, Blob};
ghost use Rattle.uu_core.specs.Marks.{marks_end};
ghost use Rattle.uu_names.specs.Grade.{grade_count};
ghost use Rattle.uu_names.specs.Name.{is_site_name, is_word};
ghost use Rattle.uu_names.specs.Text.{space};
ghost use Rattle.uu_rows.specs.Values.{NotIf, number_cell};

use crate::fault::{RowFault, name_fault, read_fault};
use sqlite::Row;
use sqlite::types::ValueRef;
use std::alloc::{AllocError, Global};
use uu_core::Mark;
use uu_names::{Grade, Listed, SiteName, Word};

/// The number in this column.
pub fn number_in(row: &Row, at: usize) -> Result<u32, RowFault>
    ensures value { IfOk result (λ number. column row.now at ≡ number_cell number) }
    ensures bad { (n : ℕ) → n < 2 ^ 32 → NotIf result (column row.now at ≡ number_cell n) }
{
    match row.get(at) {
        Ok(number) => Ok(number),
        Err(error) => Err(read_fault(&error)),
    }
}

/// The number in this column, or `None` if it is NULL.
pub(crate) fn number_or_null_in(row: &Row, at: usize) -> Result<Option<u32>, RowFault>
    ensures value { IfOk result (λ number. column row.now at ≡ or_null number_cell number) }
    ensures bad { (o : Option ℕ) → IfSome o (λ n. n < 2 ^ 32) → at < length row.now → NotIf result (column row.now at ≡ or_null number_cell o) }
{
    match row.get(at) {
        Ok(number_or_null) => Ok(number_or_null),
        Err(error) => Err(read_fault(&error)),
    }
}

/// The number of up to 64 bits in this column: a second, a number of seconds or a mark.
pub(crate) fn seconds_in(row: &Row, at: usize) -> Result<u64, RowFault>
    ensures value { IfOk result (λ seconds. column row.now at ≡ number_cell seconds) }
    ensures bad { (n : ℕ) → NotIf result (column row.now at ≡ number_cell n) }
{
    match row.get(at) {
        Ok(seconds) => Ok(seconds),
        Err(error) => Err(read_fault(&error)),
    }
}

/// The mark in this column.
pub(crate) fn mark_in(row: &Row, at: usize) -> Result<Mark, RowFault>
    ensures value { IfOk result (λ mark. column row.now at ≡ number_cell mark) }
    ensures mark { IfOk result (λ mark. mark < marks_end) }
    ensures bad { (n : ℕ) → n < marks_end → NotIf result (column row.now at ≡ number_cell n) }
{
    let number = seconds_in(row, at)?;
    Mark::of_number(number).ok_or(RowFault::Bad)
}

fn text_in(row: &Row, at: usize) -> Result<String, RowFault>
    ensures value { IfOk result (λ text. column row.now at ≡ Text (string_bytes text)) }
    ensures bad { (t : List ℕ) → IsAscii t → NotIf result (column row.now at ≡ Text t) }
{
    match row.get(at) {
        Ok(text) => Ok(text),
        Err(error) => Err(read_fault(&error)),
    }
}

fn text_or_null_in(row: &Row, at: usize) -> Result<Option<String>, RowFault>
    ensures value { IfOk result (λ text. column row.now at ≡ or_null (λ t. Text (string_bytes t)) text) }
    ensures bad { (o : Option (List ℕ)) → IfSome o IsAscii → at < length row.now → NotIf result (column row.now at ≡ or_null Text o) }
{
    match row.get(at) {
        Ok(text) => Ok(text),
        Err(error) => Err(read_fault(&error)),
    }
}

/// The bytes in this column.
pub(crate) fn bytes_in(row: &Row, at: usize) -> Result<Vec<u8>, RowFault>
    ensures value { IfOk result (λ bytes. column row.now at ≡ Blob bytes.items) }
    ensures bad { (b : List ℕ) → NotIf result (column row.now at ≡ Blob b) }
{
    match row.get(at) {
        Ok(bytes) => Ok(bytes),
        Err(error) => Err(read_fault(&error)),
    }
}

/// The bytes of the text in this column, borrowed.
pub(crate) fn bytes_of_text_in<'a>(row: &'a Row, at: usize) -> Result<&'a [u8], RowFault>
    ensures value { IfOk result (λ bytes. column row.now at ≡ Text bytes.now) }
    ensures bad { (t : List ℕ) → NotIf result (column row.now at ≡ Text t) }
{
    match row.get_ref(at) {
        Ok(ValueRef::Text(bytes)) => Ok(bytes),
        _ => Err(RowFault::Bad),
    }
}

/// The bytes in this column, borrowed.
pub(crate) fn bytes_of_blob_in<'a>(row: &'a Row, at: usize) -> Result<&'a [u8], RowFault>
    ensures value { IfOk result (λ bytes. column row.now at ≡ Blob bytes.now) }
    ensures bad { (b : List ℕ) → NotIf result (column row.now at ≡ Blob b) }
{
    match row.get_ref(at) {
        Ok(ValueRef::Blob(bytes)) => Ok(bytes),
        _ => Err(RowFault::Bad),
    }
}

/// The name in this column.
pub fn name_in(alloc: Global, row: &Row, at: usize) -> Result<SiteName, RowFault>
    ensures value { IfOk result (λ name. column row.now at ≡ Text name) }
    ensures name { IfOk result (λ name. IsTrue (is_site_name name)) }
    ensures bad { (t : List ℕ) → IsTrue (is_site_name t) → NotIf result (column row.now at ≡ Text t) }
{
    let bytes = bytes_of_text_in(row, at)?;
    match SiteName::from_bytes(alloc, bytes) {
        Ok(name) => Ok(name),
        Err(fault) => Err(name_fault(fault)),
    }
}

fn word_of(alloc: Global, text: &str) -> Result<Word, RowFault>
    ensures text { IfOk result (λ word. word ≡ text.now) }
    ensures word { IfOk result (λ word. IsTrue (is_word word)) }
    ensures bad { NotIf result (IsTrue (is_word text.now)) }
{
    match Word::parse(alloc, text) {
        Ok(word) => Ok(word),
        Err(fault) => Err(name_fault(fault)),
    }
}

/// The word in this column.
pub(crate) fn word_in(alloc: Global, row: &Row, at: usize) -> Result<Word, RowFault>
    ensures value { IfOk result (λ word. column row.now at ≡ Text word) }
    ensures word { IfOk result (λ word. IsTrue (is_word word)) }
    ensures bad { (t : List ℕ) → IsTrue (is_word t) → NotIf result (column row.now at ≡ Text t) }
{
    let bytes = bytes_of_text_in(row, at)?;
    match Word::from_bytes(alloc, bytes) {
        Ok(word) => Ok(word),
        Err(fault) => Err(name_fault(fault)),
    }
}

/// The word in this column, or `None` if it is NULL.
pub(crate) fn word_or_null_in(alloc: Global, row: &Row, at: usize) -> Result<Option<Word>, RowFault>
    ensures value { IfOk result (λ word. column row.now at ≡ or_null Text word) }
    ensures word { IfOk result (λ word. IfSome word (λ w. IsTrue (is_word w))) }
    ensures bad { (o : Option (List ℕ)) → IfSome o (λ w. IsTrue (is_word w)) → at < length row.now → NotIf result (column row.now at ≡ or_null Text o) }
{
    match text_or_null_in(row, at)? {
        None => Ok(None),
        Some(text) => Ok(Some(word_of(alloc, text.as_str())?)),
    }
}

// The parts of a text between its spaces.
fn parts_of<'a>(alloc: Global, text: &'a str) -> Result<Vec<&'a str>, AllocError>
    ensures { IfOk result (λ parts. map (λ part. part.now) parts.items ≡ slice_split (λ b. b == space) text.now) }
{
    text.split(' ').collect(alloc)
}

// The words of a text that has one space between two.
fn words_of(alloc: Global, text: &str) -> Result<Vec<Word>, RowFault>
    ensures text { IfOk result (λ words. join_with_byte space words.items ≡ text.now) }
    ensures words { IfOk result (λ words. All (λ word. IsTrue (is_word word)) words.items) }
    ensures bad { (ws : List (List ℕ)) → All (λ word. IsTrue (is_word word)) ws → NotIf result (text.now ≡ join_with_byte space ws) }
{
    let mut words = Vec::new(alloc);
    if text.is_empty() {
        return Ok(words);
    }
    let parts = parts_of(alloc, text)?;
    for part in parts.as_slice() {
        words.push(word_of(alloc, part)?)?;
    }
    Ok(words)
}

/// The words in this column, which are one text with one space between two.
pub(crate) fn arguments_in(alloc: Global, row: &Row, at: usize) -> Result<Listed<Word>, RowFault>
    ensures text { IfOk result (λ words. column row.now at ≡ Text (join_with_byte space words)) }
    ensures words { IfOk result (λ words. All (λ word. IsTrue (is_word word)) words) }
    ensures bad { (ws : List (List ℕ)) → All (λ word. IsTrue (is_word word)) ws → NotIf result (column row.now at ≡ Text (join_with_byte space ws)) }
{
    let text = text_in(row, at)?;
    let words = words_of(alloc, text.as_str())?;
    Ok(Listed::from_vec(words))
}

/// The grade whose rank is in this column.
pub fn grade_in(row: &Row, at: usize) -> Result<Grade, RowFault>
    ensures value { IfOk result (λ grade. column row.now at ≡ number_cell grade) }
    ensures grade { IfOk result (λ grade. grade < grade_count) }
    ensures bad { (g : ℕ) → g < grade_count → NotIf result (column row.now at ≡ number_cell g) }
{
    let rank = number_in(row, at)?;
    match u8::try_from(rank) {
        Ok(rank) => Grade::of_rank(rank).ok_or(RowFault::Bad),
        Err(_) => Err(RowFault::Bad),
    }
}
