// Looking up, putting, changing and removing items of the lists.
ghost use Rattle.std.specs.Prelude.{◌≡◌, ℕ, List, ◌==◌, ◌&&◌, not, find, filter, map, IfOk, OnOk, OnErr, option_copied, option_map};
ghost use Rattle.std.specs.List.{list_any};
ghost use Rattle.uu_core.specs.Refusal.{decided};
ghost use Rattle.uu_core.specs.State.{is_job, is_system, is_entry, is_link, same_text, head_of};
ghost use Rattle.uu_core.specs.Verdict.{job_reasons};
ghost use Rattle.uu_core.specs.After.{put_by, put_link, call_of, change_call, change_job, is_among, is_released};
ghost use Rattle.uu_core.specs.Order.{AreByName};

use crate::copy::copy_call;
use crate::entry::PlainEntry;
use crate::job::PlainJob;
use crate::link::PlainLink;
use std::alloc::AllocError;
use std::cmp::Ordering;
use uu_core::{By, CallState, Key, NewJob, Outcome, Refusal, SystemRow, decide_job};
use uu_names::{Grade, SiteName};
use uu_times::Moment;

pub(crate) fn system_at<'a>(rows: &'a [SystemRow], name: &SiteName) -> Option<&'a SystemRow>
    ensures { option_copied result ≡ find (is_system name.now) rows.now }
{
    rows.iter().find(|row| row.def.name == *name)
}

pub(crate) fn has_system(rows: &[SystemRow], name: &SiteName) -> bool
    ensures { result ≡ list_any (is_system name.now) rows.now }
{
    rows.iter().any(|row| row.def.name == *name)
}

// Whether the key's neighbour and the job's system are known.
pub(crate) fn are_known(rows: &[SystemRow], key: &Key, job: &NewJob) -> bool
    ensures { result ≡ (list_any (is_system key.now.from) rows.now && list_any (is_system job.now.system) rows.now) }
{
    has_system(rows, &key.from) && has_system(rows, &job.system)
}

// Whether a job waits for the system.
pub(crate) fn is_waiting(jobs: &[PlainJob], name: &SiteName) -> bool
    ensures { result ≡ list_any (λ job. same_text job.system name.now) jobs.now }
{
    jobs.iter().any(|job| job.head().system == *name)
}

pub(crate) fn job_at(jobs: &[PlainJob], number: u32) -> Option<&PlainJob>
    ensures { option_copied result ≡ find (is_job number) jobs.now }
{
    jobs.iter().find(|job| job.head().number == number)
}

pub(crate) fn entry_at<'a>(entries: &'a [PlainEntry], host: &SiteName) -> Option<&'a PlainEntry>
    ensures { option_copied result ≡ find (is_entry host.now) entries.now }
{
    entries.iter().find(|entry| entry.host() == host)
}

// Whether the job of a number, if there is one, may be touched.
pub(crate) fn decide_on(jobs: &[PlainJob], number: u32, by: &By) -> Result<(), Refusal>
    ensures { result ≡ decided (job_reasons (option_map head_of (find (is_job number) jobs.now)) by.now) tt }
{
    decide_job(job_at(jobs, number).map(|job| job.head()), by)
}

// The calls of a system so far, or those of a new one if it isn't known.
pub(crate) fn call_of(rows: &[SystemRow], name: &SiteName) -> Result<CallState, AllocError>
    ensures { IfOk result (λ call. call ≡ call_of (find (is_system name.now) rows.now)) }
{
    match system_at(rows, name) {
        Some(row) => copy_call(&row.call),
        None => Ok(CallState {
            last: 0,
            failures: 0,
            wait: 0,
            outcome: Outcome::Never,
        }),
    }
}

// What is kept in the order of a name.
pub(crate) trait Named: Drop {
    ghost name_of: { Self → List ℕ };

    fn name(&self) -> &SiteName
        ensures { result.now ≡ name_of self.now };
}

impl Named for SystemRow {
    ghost name_of = { λ row. row.def.name };

    fn name(&self) -> &SiteName {
        &self.def.name
    }
}

impl Named for PlainEntry {
    ghost name_of = { λ entry. entry.host };

    fn name(&self) -> &SiteName {
        self.host()
    }
}

impl Named for PlainLink {
    ghost name_of = { λ link. link.name };

    fn name(&self) -> &SiteName {
        &self.name
    }
}

// Puts the item in its place, instead of the one of its name if there is one.
pub(crate) fn put<T: Named>(items: &mut Vec<T>, item: T) -> Result<(), AllocError>
    requires { AreByName T.name_of items.old.items }
    ensures done { OnOk result (items.new.items ≡ put_by T.name_of item items.old.items) }
    ensures failed { OnErr result (items.new.items ≡ items.old.items) }
{
    for i in 0..items.len() {
        match item.name().cmp(items[i].name()) {
            Ordering::Less => {
                items.insert(i, item)?;
                return Ok(());
            }
            Ordering::Equal => {
                items[i] = item;
                return Ok(());
            }
            Ordering::Greater => {}
        }
    }
    items.push(item)?;
    Ok(())
}

// Puts a link in its place, if it says something.
pub(crate) fn put_link(links: &mut Vec<PlainLink>, link: PlainLink) -> Result<(), AllocError>
    requires { AreByName (λ link. link.name) links.old.items }
    ensures done { OnOk result (links.new.items ≡ put_link link links.old.items) }
    ensures failed { OnErr result (links.new.items ≡ links.old.items) }
{
    if link.says_nothing() {
        Ok(())
    } else {
        put(links, link)
    }
}

// Gives the system of the name, if there is one, these calls.
pub(crate) fn set_call(rows: &mut [SystemRow], name: &SiteName, call: CallState)
    requires { AreByName (λ row. row.def.name) rows.old }
    ensures { rows.new ≡ change_call name.now (λ _. call) rows.old }
{
    for i in 0..rows.len() {
        if rows[i].name() == name {
            rows[i].call = call;
            return;
        }
    }
}

pub(crate) fn regrade(jobs: &mut [PlainJob], number: u32, grade: Grade)
    ensures { jobs.new ≡ change_job number (λ job. record job { grade = grade }) jobs.old }
{
    for job in jobs.iter_mut() {
        if job.head().number == number {
            job.regrade(grade);
        }
    }
}

pub(crate) fn rejuvenate(jobs: &mut [PlainJob], number: u32, at: &Moment)
    ensures { jobs.new ≡ change_job number (λ job. record job { queued = at.now.second }) jobs.old }
{
    for job in jobs.iter_mut() {
        if job.head().number == number {
            job.rejuvenate(at);
        }
    }
}

fn is_among(numbers: &[u32], number: u32) -> bool
    ensures { result ≡ list_any (λ other. other == number) numbers.now }
{
    numbers.iter().any(|other| *other == number)
}

pub(crate) fn remove_system(rows: &mut Vec<SystemRow>, name: &SiteName)
    ensures { rows.new.items ≡ filter (λ row. not (is_system name.now row)) rows.old.items }
{
    rows.retain(|row| row.def.name != *name);
}

pub(crate) fn remove_link(links: &mut Vec<PlainLink>, name: &SiteName)
    ensures { links.new.items ≡ filter (λ link. not (is_link name.now link)) links.old.items }
{
    links.retain(|link| link.name != *name);
}

pub(crate) fn remove_job(jobs: &mut Vec<PlainJob>, number: u32)
    ensures { jobs.new.items ≡ filter (λ job. not (is_job number job)) jobs.old.items }
{
    jobs.retain(|job| job.head().number != number);
}

pub(crate) fn remove_jobs(jobs: &mut Vec<PlainJob>, numbers: &[u32])
    ensures { jobs.new.items ≡ filter (λ job. not (is_among numbers.now job)) jobs.old.items }
{
    jobs.retain(|job| !is_among(numbers, job.head().number));
}

// Removes those of the jobs that wait for the system.
pub(crate) fn release_jobs(jobs: &mut Vec<PlainJob>, system: &SiteName, numbers: &[u32])
    ensures { jobs.new.items ≡ filter (λ job. not (is_released system.now numbers.now job)) jobs.old.items }
{
    jobs.retain(|job| !(is_among(numbers, job.head().number) && job.head().system == *system));
}
