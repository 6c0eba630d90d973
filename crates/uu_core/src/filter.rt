// Which jobs are listed.
ghost use Rattle.std.specs.Prelude.{◌≡◌, None, option_map};

use uu_names::{SiteName, Word};

/// Which jobs are listed: those that match both fields. Every job matches an absent field.
#[derive(Debug, Drop)]
pub struct Filter {
    /// The system that the jobs are for.
    pub system: Option<SiteName>,
    /// The user whose jobs they are.
    pub user: Option<Word>,
}

impl Filter {
    /// The filter that every job matches.
    pub fn all() -> Filter
        ensures system { result.system ≡ None }
        ensures user { result.user ≡ None }
    {
        Filter {
            system: None,
            user: None,
        }
    }

    /// The system's name, if one is given.
    pub fn system_text(&self) -> Option<&str>
        ensures { option_map (λ text. text.now) result ≡ self.now.system }
    {
        match &self.system {
            Some(name) => Some(name.as_str()),
            None => None,
        }
    }

    /// The user, if one is given.
    pub fn user_text(&self) -> Option<&str>
        ensures { option_map (λ text. text.now) result ≡ self.now.user }
    {
        match &self.user {
            Some(user) => Some(user.as_str()),
            None => None,
        }
    }
}
