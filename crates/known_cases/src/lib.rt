//! Worked examples of the presets, the layouts and the elements.

#![tactic(auto)]

ghost use Rattle.std.specs.Prelude.{◌≡◌, [], ◌∷◌};
ghost use Rattle.scheme.specs.Calls.{Events};
ghost use Rattle.presets.specs.Presets.{preset_plan};
ghost use Rattle.known_cases.specs.Known.{cells_of, KnownCases};

use presets::Preset;

/// How many cells a preset has over 1, 2 and 5 events.
#[derive(Clone, Copy, Debug, PartialEq, Eq)]
pub struct Example {
    pub one: u64,
    pub two: u64,
    pub five: u64,
}

// The number of a preset's cells over n events.
fn cells_over(preset: Preset, n: u32) -> u64
    requires events { Events n }
    ensures told { result ≡ ((preset_plan preset).part n).size }
{
    preset.cells_for(n).unwrap()
}

/// The known numbers of cells of a preset. The contract also states all other worked examples.
pub fn worked_example(preset: Preset) -> Example
    ensures cells { result.one ∷ result.two ∷ result.five ∷ [] ≡ cells_of preset }
    ensures cases { KnownCases }
{
    Example {
        one: cells_over(preset, 1),
        two: cells_over(preset, 2),
        five: cells_over(preset, 5),
    }
}
