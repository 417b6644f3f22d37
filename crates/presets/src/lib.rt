//! The six presets: for each budget from 1 to 6 a scheme whose runs have no more pieces than that.

#![tactic(auto)]

ghost use Rattle.std.specs.Prelude.{◌≡◌, ◌<◌, ◌⊎◌, Some, MatchOption, MatchResult};
ghost use Rattle.presets.specs.Presets.{preset_plan, CellCount, unknown_budget_text};

mod child_exponents;
pub mod schemes;
mod tabled;

use scheme::{EventCount, Scheme};
use std::error::Error;
use std::fmt;

/// A scheme by its budget, the most pieces that a run can have.
#[derive(Clone, Copy, Debug, PartialEq, Eq)]
pub enum Preset {
    One,
    Two,
    Three,
    Four,
    Five,
    Six,
}

/// A budget that no preset has.
#[derive(Clone, Copy, Debug, PartialEq, Eq)]
pub struct UnknownBudget {
    pub budget: u32,
}

impl fmt::Display for UnknownBudget {
    ghost output = { λ e. Some (unknown_budget_text e) };

    fn fmt<W: fmt::Write>(&self, f: &mut fmt::Formatter<W>) -> fmt::Result {
        write!(f, "no preset has a budget of {}", self.budget)
    }
}

impl Error for UnknownBudget {}

impl TryFrom<u32> for Preset {
    type Error = UnknownBudget;

    ghost try_from_gives = { λ budget r. MatchResult r (λ p. (preset_plan p).budget ≡ budget) (λ e. ((budget < 1) ⊎ (6 < budget)) × (e.budget ≡ budget)) };

    fn try_from(budget: u32) -> Result<Preset, UnknownBudget> {
        match budget {
            1 => Ok(Preset::One),
            2 => Ok(Preset::Two),
            3 => Ok(Preset::Three),
            4 => Ok(Preset::Four),
            5 => Ok(Preset::Five),
            6 => Ok(Preset::Six),
            _ => Err(UnknownBudget { budget }),
        }
    }
}

impl From<Preset> for u32 {
    ghost from_gives = { λ preset r. r ≡ (preset_plan preset).budget };

    fn from(preset: Preset) -> u32 {
        match preset {
            Preset::One => 1,
            Preset::Two => 2,
            Preset::Three => 3,
            Preset::Four => 4,
            Preset::Five => 5,
            Preset::Six => 6,
        }
    }
}

impl Preset {
    /// The number of cells over n events, if n is from 1 to 65,536.
    pub fn cells_for(self, n: u32) -> Option<u64>
        ensures counted { MatchOption result ((n < 1) ⊎ (65536 < n)) (CellCount self n) }
    {
        let events = EventCount::new(n)?;
        Some(self.cells(events))
    }
}
