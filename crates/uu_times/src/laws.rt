//! Laws of the definitions that the contracts cite, and what each value of a type keeps.
ghost use Rattle.std.specs.Prelude.{◌≡◌, ◌<◌, ◌≤◌, [], ◌∷◌, length, ℕ, ℤ, pos, Bool, List, None, Some, Ok, Err, All, IsTrue, IfOk, IfErr, map, if◌then◌else◌};
ghost use Rattle.std.specs.List.{filter_map, last_or};
ghost use Rattle.uu_times.specs.Internal.Simples.{has_minute, simple_of};
ghost use Rattle.uu_times.specs.Grammar.{Spelling, Spells, has_spelled, IsLongestFront, lower};
ghost use Rattle.uu_times.specs.Ranges.{holds, AreSeparateRanges, maximal_runs};
ghost use Rattle.uu_times.specs.Internal.Scan.{list_of};
ghost use Rattle.uu_times.specs.SysFile.{known, windows_named};
ghost use Rattle.uu_times.specs.Tables.{Tables, is_table_name, table_at, predefined_strings, predefined_tables, time_of, IsReadAs, IsTimeString};
ghost use Rattle.jiff_core.specs.Calendar.{IsYear};
ghost use Rattle.jiff_core.specs.Timestamp.{IsOffsetSeconds};
ghost use Rattle.jiff_tz.specs.PosixText.{DstText};
ghost use Rattle.uu_times.specs.Rule.{ChangesInside, HasDay, IsOfYear, IsOneDay, is_daylight};
ghost use Rattle.uu_times.specs.Printed.{sys_text, system_text, IsSystem, NamesDiffer};
ghost use Rattle.uu_times.specs.SysFile.{sys_file_of};
ghost use Rattle.uu_times.specs.System.{System, AreWithinLimits};
ghost use Rattle.uu_names.specs.Text.{most_text};
ghost use Rattle.uu_times.specs.Zone.{offset_at, zone_view};
ghost use Rattle.uu_times.specs.declared.days.Simple.{Simple};
ghost use Rattle.uu_times.specs.declared.zone.Zone.{Zone};
ghost use Rattle.uu_times.specs.declared.directive.Directive.{Directive};

use crate::{SystemDef, Windows};

/// A set of week minutes is the union of its maximal runs, which are in order and apart. A list
/// that [`Windows::from_ranges`](crate::Windows::from_ranges) accepts is the list of the maximal
/// runs of its union.
pub fn sets_are_their_runs()
    ensures union { (set : ℕ → Bool) (minute : ℕ) → minute < 10080 → holds (maximal_runs set) minute ≡ set minute }
    ensures apart { (set : ℕ → Bool) → AreSeparateRanges (maximal_runs set) }
    ensures accepted { (ranges : List (ℕ × ℕ)) → AreSeparateRanges ranges → maximal_runs (holds ranges) ≡ ranges }
{}

/// The code reads from a text the simple strings that are written there, in any case of letters,
/// and their minutes are what is written. If a text isn't a list of simple strings, the fault gives
/// the length of its longest prefix that begins one.
pub fn lists_are_what_is_written()
    ensures written { (text : List ℕ) (spellings : List Spelling) → Spells (lower text) spellings → list_of text ≡ Ok (map simple_of spellings) }
    ensures read { (text : List ℕ) (simples : List Simple) → list_of text ≡ Ok simples
        → (spellings : List Spelling) × Spells (lower text) spellings × (simples ≡ map simple_of spellings) }
    ensures minutes { (spelling : Spelling) (minute : ℕ) → minute < 10080 → has_minute minute (simple_of spelling) ≡ has_spelled minute spelling }
    ensures unread { (text : List ℕ) (at : ℕ) → list_of text ≡ Err at → IsLongestFront text at }
{}

/// What the code reads from a time string is what the string means by the grammar. A string that it
/// refuses means nothing.
pub fn time_strings_are_read()
    ensures read { (tables : Tables) (line : ℕ) (text : List ℕ) → IfOk (time_of tables line text) (IsTimeString tables text) }
    ensures refused { (tables : Tables) (line : ℕ) (text : List ℕ) → IfErr (time_of tables line text) (λ _. (windows : List (ℕ × ℕ)) → ¬ IsTimeString tables text windows) }
{}

/// A name stands for the last timetable of that name before it, in any case of letters. The lines
/// of a sys file define it, or it was there before them.
pub fn the_last_timetable_counts()
    ensures { (tables : Tables) (lines : List Directive) (name : List ℕ) → IsTrue (is_table_name name)
        → table_at (known tables lines) name ≡ last_or (table_at tables name) (filter_map (windows_named (lower name)) lines) }
{}

/// Each timetable that is there from the start has a list of simple strings, and its name stands
/// for their minutes.
pub fn predefined_tables_are_read()
    ensures { All (IsReadAs predefined_tables) predefined_strings }
{}

/// What a zone says determines its clock. If it says no daylight saving time, the clock is always
/// as far from UTC as its standard time. No clock is 26 hours or more from UTC.
pub fn zones_are_what_they_say()
    ensures same { (a b : Zone) → zone_view a ≡ zone_view b → (second : ℕ) → offset_at a second ≡ offset_at b second }
    ensures standard { (zone : Zone) → (zone_view zone).dst ≡ None → (second : ℕ) → offset_at zone second ≡ (zone_view zone).std_seconds }
    ensures within { (zone : Zone) (second : ℕ) → IsOffsetSeconds (offset_at zone second) }
{}

/// A rule with daylight saving time is the clock that POSIX says, in each year of UTC that contains
/// both of its changes. (`ChangesInside` gives a rule for which this fails.) Each day that a rule
/// names is one day of a year that has it.
pub fn rules_mean_what_posix_says()
    ensures days { (zone : Zone) (daylight : DstText) → (zone_view zone).dst ≡ Some daylight → (year : ℤ)
        → (HasDay year daylight.start.0 → IsOneDay year daylight.start.0) × (HasDay year daylight.finish.0 → IsOneDay year daylight.finish.0) }
    ensures offset { (zone : Zone) (daylight : DstText) → (zone_view zone).dst ≡ Some daylight → (year begin end : ℤ) → IsYear year
        → ChangesInside (zone_view zone).std_seconds daylight year begin end → (second : ℕ) → IsOfYear year (pos second)
        → offset_at zone second ≡ (if is_daylight begin end (pos second) then daylight.seconds else (zone_view zone).std_seconds) }
{}

/// A sys file printed from systems is read as these systems, in their order, and no line is
/// skipped. The text of one system is short enough to be read.
pub fn printed_systems_are_read()
    ensures read { (systems : List System) → All IsSystem systems → NamesDiffer systems → sys_file_of (sys_text systems) ≡ Ok (record { systems = systems; skipped = [] }) }
    ensures short { (system : System) → IsSystem system → length (sys_text (system ∷ [])) ≤ most_text }
{}

/// A value of type [`Windows`] is a list of runs, in order and apart.
pub fn windows_are_sound(windows: &Windows)
    ensures { AreSeparateRanges windows.now }
{
    windows.ranges();
}

/// The lines and numbers of a definition are within their limits.
pub fn limits_are_kept(def: &SystemDef)
    ensures { AreWithinLimits def.now.lines def.now.max_retries def.now.success_wait }
{
    def.lines();
}
