ghost use Rattle.board_index.specs.Kept.{Kept};
ghost use Rattle.board_index.specs.KeptLaws.{kept_prop};

use board_index::index::Index;
use group::group::Group;
use protocol::phase::Phase;
use std::marker::PhantomData;

// The taken records stand in the area one after another from its start.
#[derive(Drop)]
pub struct Ceremony<'a, G: Group> {
    pub(crate) area: &'a mut [u8],
    pub(crate) used: usize,
    pub(crate) n: u8,
    pub(crate) t: u8,
    pub(crate) phase: Phase,
    pub(crate) index: Index,
    pub(crate) group: PhantomData<G>,

    // The index, n, t and the phase are those of the board that the used bytes say.
    ghost kept: { Kept G.meaning (record { area = area.now; used = used; n = n; t = t; phase = phase; places = index.places; truths = index.truths }) } by { kept_prop G.meaning (record { area = area.now; used = used; n = n; t = t; phase = phase; places = index.places; truths = index.truths }) },
}
