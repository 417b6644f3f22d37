//! The scheme of each preset.
//!
//! One and Two have their own, Three and Four put a layer of blocks over these, and Five and Six a second one. The child
//! exponents of the first four, and with them the layouts of all layers, are read from the table.

ghost use Rattle.presets.specs.Presets.{preset_plan};
ghost use Rattle.presets.specs.Bounds.{preset_sound};

use crate::Preset;
use crate::tabled::ByTable;
use basic_schemes::flat::Flat;
use basic_schemes::halving::Halving;
use block_layer::BlockLayer;
use scheme::{Answer, EventCount, EventNo, EventRun, ParentExponent, Piece, Scheme};
use semigroup::Semigroup;

type SchemeOne = ByTable<Flat>;

type SchemeTwo = ByTable<Halving>;

type SchemeThree = ByTable<BlockLayer<SchemeOne>>;

type SchemeFour = ByTable<BlockLayer<SchemeTwo>>;

const ONE: SchemeOne = ByTable(Flat);

const TWO: SchemeTwo = ByTable(Halving);

const THREE: SchemeThree = ByTable(BlockLayer { inner: ONE });

const FOUR: SchemeFour = ByTable(BlockLayer { inner: TWO });

const FIVE: BlockLayer<SchemeThree> = BlockLayer { inner: THREE };

const SIX: BlockLayer<SchemeFour> = BlockLayer { inner: FOUR };

// A call of the scheme of a preset. Its elements are of any type, so the schemes are no `dyn Scheme`.
macro_rules! of_its_scheme {
    ($preset:expr, $call:ident($($argument:expr),*)) => {
        match $preset {
            Preset::One => ONE.$call($($argument),*),
            Preset::Two => TWO.$call($($argument),*),
            Preset::Three => THREE.$call($($argument),*),
            Preset::Four => FOUR.$call($($argument),*),
            Preset::Five => FIVE.$call($($argument),*),
            Preset::Six => SIX.$call($($argument),*),
        }
    };
}

impl Scheme for Preset {
    ghost plan = { preset_plan };

    ghost sound = { preset_sound };

    fn child_exponent(&self, parents: ParentExponent) -> u32 {
        of_its_scheme!(self, child_exponent(parents))
    }

    fn budget(&self) -> u64 {
        u64::from(u32::from(*self))
    }

    fn cells(&self, events: EventCount) -> u64 {
        of_its_scheme!(self, cells(events))
    }

    fn piece_count(&self, run: EventRun) -> u32 {
        of_its_scheme!(self, piece_count(run))
    }

    fn fill<T: Semigroup>(&self, events: EventCount, table: &mut [T]) {
        of_its_scheme!(self, fill(events, table))
    }

    fn query<T: Semigroup>(&self, table: &[T], run: EventRun, trace: &mut [Piece]) -> Answer<T> {
        of_its_scheme!(self, query(table, run, trace))
    }

    fn update<T: Semigroup>(&self, events: EventCount, table: &mut [T], p: EventNo, element: T) {
        of_its_scheme!(self, update(events, table, p, element))
    }
}
