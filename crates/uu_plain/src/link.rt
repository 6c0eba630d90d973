// What is kept about a neighbour's jobs.
ghost use Rattle.std.specs.Prelude.{◌≡◌, nat_lt, nat_le, IfOk, OnOk, unwrap_or, filter, find, option_copied};
ghost use Rattle.uu_core.specs.State.{is_link, is_taken, new_link, says_nothing, taken_at};
ghost use Rattle.uu_core.specs.After.{forgotten, put_link, with_taken};

use std::alloc::{AllocError, Global};
use std::marker::Model;
use uu_core::Taken;
use uu_names::SiteName;

/// What is kept about the jobs that a neighbour hands on.
#[derive(Drop)]
pub struct PlainLink {
    pub(crate) name: SiteName,
    below: u32,
    taken: Vec<Taken>,
}

impl Model for PlainLink {
    ghost use Rattle.uu_core.specs.State.{Link};

    ghost Value = { Link };

    ghost view = { λ link. record { name = link.name; below = link.below; taken = link.taken.items } };
}

impl PlainLink {
    /// The neighbour.
    pub fn name(&self) -> &SiteName
        ensures { result.now ≡ self.now.name }
    {
        &self.name
    }

    /// The number below which the neighbour won't ask again.
    pub fn below(&self) -> u32
        ensures { result ≡ self.now.below }
    {
        self.below
    }

    /// What was taken from it, in order of the numbers there.
    pub fn taken(&self) -> &[Taken]
        ensures { result.now ≡ self.now.taken }
    {
        self.taken.as_slice()
    }

    pub(crate) fn says_nothing(&self) -> bool
        ensures { result ≡ says_nothing self.now }
    {
        self.below == 0 && self.taken.len() == 0
    }

    pub(crate) fn taken_at(&self, number: u32) -> Option<Taken>
        ensures { result ≡ taken_at self.now number }
    {
        row_of(self.taken.as_slice(), number).copied()
    }

    // One more was taken.
    pub(crate) fn take(&mut self, alloc: Global, taken: Taken) -> Result<(), AllocError>
        ensures { OnOk result (self.new ≡ with_taken taken self.old) }
    {
        let mut rest = self.taken.as_slice().to_vec(alloc)?;
        keep_above(&mut rest, taken.number);
        keep_below(&mut self.taken, taken.number);
        self.taken.push(taken)?;
        self.taken.append(&mut rest)?;
        Ok(())
    }

    // The neighbour won't ask again for a number below this one.
    pub(crate) fn forget(&mut self, below: u32)
        ensures { self.new ≡ forgotten below self.old }
    {
        self.below = self.below.max(below);
        keep_from(&mut self.taken, below);
    }

    fn copy(&self, alloc: Global) -> Result<PlainLink, AllocError>
        ensures { IfOk result (λ copy. copy ≡ self.now) }
    {
        Ok(PlainLink {
            name: self.name.clone()?,
            below: self.below,
            taken: self.taken.as_slice().to_vec(alloc)?,
        })
    }
}

fn keep_below(rows: &mut Vec<Taken>, number: u32)
    ensures { rows.new.items ≡ filter (λ row. nat_lt row.number number) rows.old.items }
{
    rows.retain(|row| row.number < number);
}

fn keep_above(rows: &mut Vec<Taken>, number: u32)
    ensures { rows.new.items ≡ filter (λ row. nat_lt number row.number) rows.old.items }
{
    rows.retain(|row| number < row.number);
}

fn keep_from(rows: &mut Vec<Taken>, number: u32)
    ensures { rows.new.items ≡ filter (λ row. nat_le number row.number) rows.old.items }
{
    rows.retain(|row| number <= row.number);
}

fn row_of(rows: &[Taken], number: u32) -> Option<&Taken>
    ensures { option_copied result ≡ find (is_taken number) rows.now }
{
    rows.iter().find(|taken| taken.number == number)
}

fn link_at<'a>(links: &'a [PlainLink], name: &SiteName) -> Option<&'a PlainLink>
    ensures { option_copied result ≡ find (is_link name.now) links.now }
{
    links.iter().find(|link| link.name() == name)
}

// A copy of a neighbour's link, or a new one if nothing is kept.
pub(crate) fn link_of(
    alloc: Global,
    links: &[PlainLink],
    name: &SiteName,
) -> Result<PlainLink, AllocError>
    ensures { IfOk result (λ link. link ≡ unwrap_or (find (is_link name.now) links.now) (new_link name.now)) }
{
    match link_at(links, name) {
        Some(link) => link.copy(alloc),
        None => Ok(PlainLink {
            name: name.clone()?,
            below: 0,
            taken: Vec::new(alloc),
        }),
    }
}
