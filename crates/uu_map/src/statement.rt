// The statements of an entry.
ghost use Rattle.std.specs.Prelude.{◌≡◌, ◌<◌, ◌≤◌, ◌∷◌, [], length, take, drop, option_map, IfOk};
ghost use Rattle.std.specs.List.{prefix_len};
ghost use Rattle.uu_names.specs.Name.{is_site_byte};
ghost use Rattle.uu_map.specs.Token.{tokens};
ghost use Rattle.uu_names.specs.Text.{is_blank};
ghost use Rattle.uu_map.specs.Statement.{is_mark, all_blank, cut, is_comma};
ghost use Rattle.uu_map.specs.Internal.StatementReading.{skip, skip_mark, cost_behind, site_name, named_link, link_of, named_alias, alias_of, list_of, meaning_of, said_by, statement_of};

use crate::entry::{Cost, Link};
use crate::expression::cost;
use crate::token::{Token, next_token};
use std::alloc::{AllocError, Global};
use uu_names::text::{blanks_len, is_blank, len_before};
use uu_names::{NameFault, SiteName, is_site_byte};

/// What a statement says about its host.
#[derive(Drop)]
pub(crate) struct Statement {
    pub(crate) aliases: Vec<SiteName>,
    pub(crate) links: Vec<Link>,
}

/// The cost of a link without a written cost.
const USUAL_COST: u64 = 4000;

fn is_mark(byte: u8) -> bool
    ensures { result ≡ is_mark byte }
{
    matches!(byte, b'!' | b'@' | b':' | b'%')
}

pub(crate) fn is_all_blank(text: &[u8]) -> bool
    ensures { result ≡ all_blank text.now }
{
    text.iter().all(|byte| is_blank(*byte))
}

pub(crate) fn skip_blanks(text: &[u8]) -> &[u8]
    ensures { result.now ≡ skip is_blank text.now }
{
    let (_, rest) = text.split_at(blanks_len(text));
    rest
}

pub(crate) fn skip_mark(text: &[u8]) -> &[u8]
    ensures { result.now ≡ skip_mark text.now }
{
    match text {
        [first, rest @ ..] if is_mark(*first) => rest,
        _ => text,
    }
}

// The length of the longest prefix whose bytes a name may have.
pub(crate) fn name_len(text: &[u8]) -> usize
    ensures value { result ≡ prefix_len is_site_byte text.now }
    ensures bound { result ≤ length text.now }
{
    text.iter().take_while(|byte| is_site_byte(**byte)).count()
}

pub(crate) fn cost_behind(alloc: Global, text: &[u8]) -> Result<Option<Cost>, AllocError>
    ensures { IfOk result (λ cost. cost ≡ cost_behind (tokens text.now)) }
{
    match next_token(text) {
        None => Ok(Some(Cost::Value(USUAL_COST))),
        Some((Token::Open, rest)) => cost(alloc, rest),
        Some(_) => Ok(None),
    }
}

pub(crate) fn site_name(alloc: Global, text: &[u8]) -> Result<Option<SiteName>, AllocError>
    ensures { IfOk result (λ name. name ≡ site_name text.now) }
{
    match SiteName::from_bytes(alloc, text) {
        Ok(name) => Ok(Some(name)),
        Err(NameFault::Memory) => Err(AllocError),
        Err(_) => Ok(None),
    }
}

#[tactic(auto, unfolding(crate::specs::Internal::StatementReading::named_link))]
fn named_link(alloc: Global, text: &[u8]) -> Result<Option<Link>, AllocError>
    ensures { IfOk result (λ link. link ≡ named_link text.now) }
{
    let (name, behind) = text.split_at(name_len(text));
    let Some(cost) = cost_behind(alloc, skip_mark(behind))? else {
        return Ok(None);
    };
    let Some(to) = site_name(alloc, name)? else {
        return Ok(None);
    };
    Ok(Some(Link { to, cost }))
}

#[tactic(auto, unfolding(crate::specs::Internal::StatementReading::link_of))]
fn link_of(alloc: Global, text: &[u8]) -> Result<Option<Link>, AllocError>
    ensures { IfOk result (λ link. link ≡ link_of text.now) }
{
    named_link(alloc, skip_mark(skip_blanks(text)))
}

#[tactic(auto, unfolding(crate::specs::Internal::StatementReading::named_alias))]
fn named_alias(alloc: Global, text: &[u8]) -> Result<Option<SiteName>, AllocError>
    ensures { IfOk result (λ name. name ≡ named_alias text.now) }
{
    let (name, behind) = text.split_at(name_len(text));
    if is_all_blank(behind) {
        site_name(alloc, name)
    } else {
        Ok(None)
    }
}

#[tactic(auto, unfolding(crate::specs::Internal::StatementReading::alias_of))]
fn alias_of(alloc: Global, text: &[u8]) -> Result<Option<SiteName>, AllocError>
    ensures { IfOk result (λ name. name ≡ alias_of text.now) }
{
    named_alias(alloc, skip_blanks(text))
}

// The text before the first comma, and the text after it.
fn first_part(text: &[u8]) -> (&[u8], &[u8])
    requires { 0 < length text.now }
    ensures parts { cut is_comma text.now ≡ result.0.now ∷ cut is_comma result.1.now }
    ensures shorter { length result.1.now < length text.now }
{
    let (part, rest) = text.split_at(len_before(text, b','));
    match rest {
        [] => (part, rest),
        [_, rest @ ..] => (part, rest),
    }
}

fn links_of(alloc: Global, list: &[u8]) -> Result<Option<Vec<Link>>, AllocError>
    ensures { IfOk result (λ links. option_map (λ v. v.items) links ≡ list_of link_of list.now) }
{
    let mut links = Vec::new(alloc);
    let mut rest = list;
    while !rest.is_empty() {
        let (part, after) = first_part(rest);
        if !is_all_blank(part) {
            let Some(link) = link_of(alloc, part)? else {
                return Ok(None);
            };
            links.push(link)?;
        }
        rest = after;
    }
    Ok(Some(links))
}

pub(crate) fn aliases_of(alloc: Global, list: &[u8]) -> Result<Option<Vec<SiteName>>, AllocError>
    ensures { IfOk result (λ aliases. option_map (λ v. v.items) aliases ≡ list_of alias_of list.now) }
{
    let mut aliases = Vec::new(alloc);
    let mut rest = list;
    while !rest.is_empty() {
        let (part, after) = first_part(rest);
        if !is_all_blank(part) {
            let Some(alias) = alias_of(alloc, part)? else {
                return Ok(None);
            };
            aliases.push(alias)?;
        }
        rest = after;
    }
    Ok(Some(aliases))
}

// What the text after the host says.
fn said_by(alloc: Global, text: &[u8]) -> Result<Option<Statement>, AllocError>
    ensures { IfOk result (λ said. option_map meaning_of said ≡ said_by text.now) }
{
    match (text, skip_blanks(text)) {
        ([], _) => Ok(Some(Statement {
            aliases: Vec::new(alloc),
            links: Vec::new(alloc),
        })),
        (_, [b'=', list @ ..]) => {
            let Some(aliases) = aliases_of(alloc, list)? else {
                return Ok(None);
            };
            Ok(Some(Statement {
                aliases,
                links: Vec::new(alloc),
            }))
        }
        ([first, list @ ..], _) if is_blank(*first) => {
            let Some(links) = links_of(alloc, list)? else {
                return Ok(None);
            };
            Ok(Some(Statement {
                aliases: Vec::new(alloc),
                links,
            }))
        }
        _ => Ok(None),
    }
}

/// What a statement of the host says, or `None` if it is skipped.
#[tactic(auto, unfolding(crate::specs::Internal::StatementReading::statement_of))]
pub(crate) fn statement_of(
    alloc: Global,
    host: &[u8],
    text: &[u8],
) -> Result<Option<Statement>, AllocError>
    ensures { IfOk result (λ said. option_map meaning_of said ≡ statement_of host.now text.now) }
{
    match text.strip_prefix(host) {
        Some(rest) => said_by(alloc, rest),
        None => Ok(None),
    }
}
