//! The exponents of the children of blocks, as a table.

ghost use Rattle.std.specs.Prelude.{◌≡◌, ◌≤◌};
ghost use Rattle.presets.specs.Presets.{preset_plan, child_rule};

use crate::Preset;
use scheme::ParentExponent;

// Four rows of 16, for the presets One to Four: in each, the child exponents of blocks of 2^1 to 2^16 events.
const CHILD_EXPONENTS: [u8; 64] = [
    // One: every run
    0, 1, 1, 2, 2, 3, 3, 4, 4, 5, 5, 6, 6, 7, 7, 8,
    // Two: halved blocks
    0, 1, 2, 2, 3, 3, 3, 3, 4, 4, 4, 4, 4, 4, 4, 4,
    // Three: a layer of blocks over One
    0, 1, 1, 2, 2, 2, 2, 2, 2, 2, 2, 2, 2, 2, 2, 3,
    // Four: a layer of blocks over Two
    0, 1, 2, 2, 2, 2, 2, 2, 2, 2, 2, 2, 2, 2, 2, 2,
];

// The exponent of the children of blocks, read from a preset's row.
pub(crate) fn tabled_child(row: Preset, parents: ParentExponent) -> u32
    requires row { (preset_plan row).budget ≤ 4 }
    ensures ruled { result ≡ child_rule row parents.blocks.e }
{
    let place = 16 * (u32::from(row) - 1) + (parents.blocks.e - 1);
    u32::from(CHILD_EXPONENTS[place as usize])
}
