//! The texts, numbers, words and bang paths under an id, and texts read as names, words and grades.

ghost use Rattle.std.specs.Prelude.{◌≡◌, ◌∷◌, [], All, IfOk, IfErr, IsSome, IsTrue, Some, map, option_map, codes};
ghost use Rattle.std.specs.String.{string_bytes};
ghost use Rattle.clap.specs.ValueTests.{is_unsigned_in};
ghost use Rattle.clap.specs.Words.{first_of, rows_of, found_of};
ghost use Rattle.uu_names.specs.Path.{IsPathText};
ghost use Rattle.uu_line.specs.Internal.Entries.{AreNumbersUpTo, most_job, most_second, most_size};
ghost use Rattle.uu_line.specs.Lines.{texts_at};
ghost use Rattle.uu_line.specs.Lines.{AnswersUnlessMemory, AreNumbers, IsNumber, IsNumberOf, WithText};
ghost use Rattle.uu_line.specs.Lines as spec;

use crate::fault::LineFault;
use crate::origin::{Origin, origin_of};
use clap::ArgMatches;
use std::alloc::Global;
use uu_names::{Grade, Listed, NameFault, Path, SiteName, Word};

/// The text of an entry that every line has.
pub(crate) fn text_in<'a>(given: &ArgMatches<'a>, id: &str) -> &'a str
    requires { IsSome (first_of id.now (rows_of (found_of given.now))) }
    ensures { Some result.now ≡ first_of id.now (rows_of (found_of given.now)) }
{
    match given.get_str(id) {
        Some(text) => text,
        None => unreachable!(),
    }
}

/// The number of JOB.
pub(crate) fn job_in(given: &ArgMatches<'_>) -> u32
    requires there { IsSome (first_of (codes "job") (rows_of (found_of given.now))) }
    requires number { AreNumbersUpTo most_job (texts_at (codes "job") (rows_of (found_of given.now))) }
    ensures { WithText (codes "job") (rows_of (found_of given.now)) (λ text. IsNumber 32 text result) }
{
    number_of(text_in(given, "job"))
}

/// The path of `-c`, if it is given.
pub(crate) fn config_in(alloc: Global, given: &ArgMatches<'_>) -> Result<Option<String>, LineFault>
    ensures path { IfOk result (λ path. option_map string_bytes path ≡ first_of (codes "config") (rows_of (found_of given.now))) }
    ensures memory { IfErr result (λ fault. fault ≡ LineFault.Memory) }
{
    match given.get_str("config") {
        Some(path) => match string_of(alloc, path) {
            Ok(path) => Ok(Some(path)),
            Err(fault) => Err(fault),
        },
        None => Ok(None),
    }
}

/// The second of `--at`, if it is given.
pub(crate) fn second_in(given: &ArgMatches<'_>) -> Option<u64>
    requires { AreNumbersUpTo most_second (texts_at (codes "at") (rows_of (found_of given.now))) }
    ensures { IsNumberOf 64 (first_of (codes "at") (rows_of (found_of given.now))) result }
{
    match given.get_str("at") {
        Some(text) => Some(second_of(text)),
        None => None,
    }
}

/// The number of `--after`, if it is given.
pub(crate) fn after_in(given: &ArgMatches<'_>) -> Option<u32>
    requires { AreNumbersUpTo most_job (texts_at (codes "job") (rows_of (found_of given.now))) }
    ensures { IsNumberOf 32 (first_of (codes "job") (rows_of (found_of given.now))) result }
{
    match given.get_str("job") {
        Some(text) => Some(number_of(text)),
        None => None,
    }
}

/// The bytes of `--most`, if they are given.
pub(crate) fn most_in(given: &ArgMatches<'_>) -> Option<u32>
    requires { AreNumbersUpTo most_size (texts_at (codes "most") (rows_of (found_of given.now))) }
    ensures { IsNumberOf 32 (first_of (codes "most") (rows_of (found_of given.now))) result }
{
    match given.get_str("most") {
        Some(text) => Some(number_of(text)),
        None => None,
    }
}

/// Whether a flag is given.
pub(crate) fn has_flag(given: &ArgMatches<'_>, id: &str) -> bool
    ensures { result ≡ spec.has_flag id.now (rows_of (found_of given.now)) }
{
    match given.get_str(id) {
        Some(text) => "true" == text,
        None => false,
    }
}

/// The numbers of JOB, none if there is no such entry.
pub(crate) fn jobs_in(alloc: Global, given: &ArgMatches<'_>) -> Result<Listed<u32>, LineFault>
    requires { AreNumbersUpTo most_job (texts_at (codes "job") (rows_of (found_of given.now))) }
    ensures jobs { IfOk result (AreNumbers 32 (texts_at (codes "job") (rows_of (found_of given.now)))) }
    ensures memory { IfErr result (λ fault. fault ≡ LineFault.Memory) }
{
    match given.get_strs("job") {
        Some(texts) => jobs_of(alloc, texts),
        None => Ok(Listed::from_vec(Vec::new(alloc))),
    }
}

// The numbers of jobs.
fn jobs_of(alloc: Global, texts: &[&str]) -> Result<Listed<u32>, LineFault>
    requires { AreNumbersUpTo most_job (map (λ text. text.now) texts.now) }
    ensures jobs { IfOk result (λ jobs. AreNumbers 32 (map (λ text. text.now) texts.now) jobs) }
    ensures memory { IfErr result (λ fault. fault ≡ LineFault.Memory) }
{
    let mut jobs = Vec::new(alloc);
    for text in texts {
        jobs.push(number_of(text))?;
    }
    Ok(Listed::from_vec(jobs))
}

// The number of a job, or of bytes.
fn number_of(text: &str) -> u32
    requires { IsTrue (is_unsigned_in 0 most_job text.now) }
    ensures { IsNumber 32 text.now result }
{
    match text.parse::<u32>() {
        Ok(job) => job,
        Err(_) => unreachable!(),
    }
}

fn second_of(text: &str) -> u64
    requires { IsTrue (is_unsigned_in 0 most_second text.now) }
    ensures { IsNumber 64 text.now result }
{
    match text.parse::<u64>() {
        Ok(second) => second,
        Err(_) => unreachable!(),
    }
}

// The text as a string.
fn string_of(alloc: Global, text: &str) -> Result<String, LineFault>
    ensures text { IfOk result (λ string. string_bytes string ≡ text.now) }
    ensures memory { IfErr result (λ fault. fault ≡ LineFault.Memory) }
{
    match String::from_str(alloc, text) {
        Ok(string) => Ok(string),
        Err(_) => Err(LineFault::Memory),
    }
}

/// The text as a site name.
pub(crate) fn site_of(alloc: Global, text: &str) -> Result<SiteName, LineFault>
    ensures { AnswersUnlessMemory result (spec.site_of text.now) }
{
    match SiteName::parse(alloc, text) {
        Ok(name) => Ok(name),
        Err(fault) => Err(LineFault::from(fault)),
    }
}

/// The text as a word.
pub(crate) fn word_of(alloc: Global, text: &str) -> Result<Word, LineFault>
    ensures { AnswersUnlessMemory result (spec.word_of text.now) }
{
    match Word::parse(alloc, text) {
        Ok(word) => Ok(word),
        Err(fault) => Err(LineFault::from(fault)),
    }
}

/// The text as a site name, if there is one.
pub(crate) fn optional_site(
    alloc: Global,
    text: Option<&str>,
) -> Result<Option<SiteName>, LineFault>
    ensures { AnswersUnlessMemory result (spec.optional spec.site_of (option_map (λ text. text.now) text.entry)) }
{
    match text {
        Some(text) => match site_of(alloc, text) {
            Ok(name) => Ok(Some(name)),
            Err(fault) => Err(fault),
        },
        None => Ok(None),
    }
}

/// The text as a word, if there is one.
pub(crate) fn optional_word(alloc: Global, text: Option<&str>) -> Result<Option<Word>, LineFault>
    ensures { AnswersUnlessMemory result (spec.optional spec.word_of (option_map (λ text. text.now) text.entry)) }
{
    match text {
        Some(text) => match word_of(alloc, text) {
            Ok(word) => Ok(Some(word)),
            Err(fault) => Err(fault),
        },
        None => Ok(None),
    }
}

/// The text as a grade, which is one byte.
pub(crate) fn grade_of(text: &str) -> Result<Grade, LineFault>
    ensures { AnswersUnlessMemory result (spec.grade_of text.now) }
{
    let [byte] = text.as_bytes() else {
        return Err(LineFault::Name(NameFault::BadGrade));
    };
    match Grade::parse(*byte) {
        Ok(grade) => Ok(grade),
        Err(fault) => Err(LineFault::from(fault)),
    }
}

/// The text as `SYSTEM!NUMBER[!WORD]`, if there is one.
pub(crate) fn optional_origin(
    alloc: Global,
    text: Option<&str>,
) -> Result<Option<Origin>, LineFault>
    ensures { AnswersUnlessMemory result (spec.optional spec.origin_of (option_map (λ text. text.now) text.entry)) }
{
    match text {
        Some(text) => match origin_of(alloc, text) {
            Ok(origin) => Ok(Some(origin)),
            Err(fault) => Err(fault),
        },
        None => Ok(None),
    }
}

/// The texts of `-g` and `--once`.
#[tactic(auto, using(crate::proofs::LineLemmas::answers_then))]
pub(crate) fn terms_of(
    alloc: Global,
    grade: &str,
    once: Option<&str>,
) -> Result<(Grade, Option<Origin>), LineFault>
    ensures { AnswersUnlessMemory result (spec.terms_of grade.now (option_map (λ text. text.now) once.entry)) }
{
    let grade = grade_of(grade)?;
    let once = optional_origin(alloc, once)?;
    Ok((grade, once))
}

/// The words of an entry, none if there is no such entry.
pub(crate) fn words_in(
    alloc: Global,
    given: &ArgMatches<'_>,
    id: &str,
) -> Result<Listed<Word>, LineFault>
    ensures { AnswersUnlessMemory result (spec.words_of (texts_at id.now (rows_of (found_of given.now)))) }
{
    match given.get_strs(id) {
        Some(texts) => words_of(alloc, texts),
        None => Ok(Listed::from_vec(Vec::new(alloc))),
    }
}

fn words_of(alloc: Global, texts: &[&str]) -> Result<Listed<Word>, LineFault>
    ensures { AnswersUnlessMemory result (spec.words_of (map (λ text. text.now) texts.now)) }
{
    let mut words = Vec::new(alloc);
    for text in texts {
        match word_of(alloc, text) {
            Ok(word) => words.push(word)?,
            Err(fault) => return Err(fault),
        }
    }
    Ok(Listed::from_vec(words))
}

/// The site names of an entry, none if there is no such entry.
pub(crate) fn sites_in(
    alloc: Global,
    given: &ArgMatches<'_>,
    id: &str,
) -> Result<Listed<SiteName>, LineFault>
    ensures { AnswersUnlessMemory result (spec.sites_of (texts_at id.now (rows_of (found_of given.now)))) }
{
    match given.get_strs(id) {
        Some(texts) => sites_of(alloc, texts),
        None => Ok(Listed::from_vec(Vec::new(alloc))),
    }
}

// The texts as site names.
fn sites_of(alloc: Global, texts: &[&str]) -> Result<Listed<SiteName>, LineFault>
    ensures { AnswersUnlessMemory result (spec.sites_of (map (λ text. text.now) texts.now)) }
{
    let mut sites = Vec::new(alloc);
    for text in texts {
        match site_of(alloc, text) {
            Ok(site) => sites.push(site)?,
            Err(fault) => return Err(fault),
        }
    }
    Ok(Listed::from_vec(sites))
}

/// The bang paths of an entry, none if there is no such entry.
pub(crate) fn paths_in(
    alloc: Global,
    given: &ArgMatches<'_>,
    id: &str,
) -> Result<Vec<Path>, LineFault>
    ensures paths { IfOk result (λ paths. (paths.items ≡ texts_at id.now (rows_of (found_of given.now)))
        × All IsPathText (texts_at id.now (rows_of (found_of given.now)))) }
    ensures fault { IfErr result (spec.IsAddressFault (texts_at id.now (rows_of (found_of given.now)))) }
{
    match given.get_strs(id) {
        Some(texts) => paths_of(alloc, texts),
        None => Ok(Vec::new(alloc)),
    }
}

// The texts as bang paths.
fn paths_of(alloc: Global, texts: &[&str]) -> Result<Vec<Path>, LineFault>
    ensures paths { IfOk result (λ paths. (paths.items ≡ map (λ text. text.now) texts.now)
        × All IsPathText (map (λ text. text.now) texts.now)) }
    ensures fault { IfErr result (spec.IsAddressFault (map (λ text. text.now) texts.now)) }
{
    let mut paths = Vec::new(alloc);
    for text in texts {
        match path_of(alloc, text) {
            Ok(path) => paths.push(path)?,
            Err(fault) => return Err(fault),
        }
    }
    Ok(paths)
}

/// The text as a bang path.
pub(crate) fn path_of(alloc: Global, text: &str) -> Result<Path, LineFault>
    ensures path { IfOk result (λ path. (path ≡ text.now) × IsPathText text.now) }
    ensures fault { IfErr result (spec.IsAddressFault (text.now ∷ [])) }
{
    match Path::parse(alloc, text) {
        Ok(path) => Ok(path),
        Err(fault) => Err(LineFault::from(fault)),
    }
}
