// Days of the week with hours of the day.
ghost use Rattle.std.specs.Prelude.{◌≡◌, ◌<◌};
ghost use Rattle.uu_times.specs.Days.{spans};
ghost use Rattle.uu_times.specs.Internal.Simples.{with_days, has_day};

/// Days of the week.
#[derive(Clone, Copy)]
pub struct Days {
    pub sunday: bool,
    pub monday: bool,
    pub tuesday: bool,
    pub wednesday: bool,
    pub thursday: bool,
    pub friday: bool,
    pub saturday: bool,
}

/// What a simple string means: days, and the first and the last minute of their hours.
#[derive(Clone, Copy)]
pub struct Simple {
    pub days: Days,
    pub hours: Option<(u16, u16)>,
}

/// No day.
pub const NO_DAYS: Days = Days {
    sunday: false,
    monday: false,
    tuesday: false,
    wednesday: false,
    thursday: false,
    friday: false,
    saturday: false,
};

// Whether the day is one of those from first to last.
fn spans(days: (u8, u8), day: u8) -> bool
    ensures { result ≡ spans days day }
{
    days.0 <= day && day <= days.1
}

impl Days {
    /// These days and those from the first to the last of a day word.
    pub fn with(self, more: (u8, u8)) -> Days
        ensures { result ≡ with_days self more }
    {
        Days {
            sunday: self.sunday || spans(more, 0),
            monday: self.monday || spans(more, 1),
            tuesday: self.tuesday || spans(more, 2),
            wednesday: self.wednesday || spans(more, 3),
            thursday: self.thursday || spans(more, 4),
            friday: self.friday || spans(more, 5),
            saturday: self.saturday || spans(more, 6),
        }
    }

    /// Whether the day is among them; 0 is Sunday.
    pub fn has(&self, day: u16) -> bool
        requires { day < 7 }
        ensures { result ≡ has_day self.now day }
    {
        match day {
            0 => self.sunday,
            1 => self.monday,
            2 => self.tuesday,
            3 => self.wednesday,
            4 => self.thursday,
            5 => self.friday,
            _ => self.saturday,
        }
    }
}
