// What the taken records say and decide, found by the index.
ghost use Rattle.std.specs.Prelude.{◌≡◌, ◌+◌, true, not, ◌||◌, nat_le, nat_lt, ◌==◌};
ghost use Rattle.group.specs.Monoid.{power};
ghost use Rattle.group.specs.Meaning.{products};
ghost use Rattle.protocol.specs.declared.kind.Kind.TheVariants.{Deal, Exposure};
ghost use Rattle.sharing.specs.Value.{value_at};
ghost use Rattle.protocol.specs.Seats.{count, every, holds};
ghost use Rattle.protocol.specs.Record.{layout_of, Elements, SecondAndShare};
ghost use Rattle.protocol.specs.Board.{entry, has as is_taken, passes1, passes2, complained, answered, qualified, contested, revealed, all_revealed, starts, phase_of, exposure_of};
ghost use Rattle.board_index.specs.State.{is_indexed};
ghost use Rattle.board.specs.State.{board};
ghost use Rattle.board.specs.Posting.{ValueIn, ShareIn, FirstIn};

use crate::ceremony::Ceremony;
use group::group::Group;
use group::powers::power_of;
use protocol::kind::Kind;
use protocol::phase::Phase;
use sharing::commitment::{Share, commit};
use sharing::element::Element;
use sharing::evaluation::value_of_known;
use sharing::linear::Linear;

impl<'a, G: Group> Ceremony<'a, G> {
    // The number of seats, 0 before the ceremony is opened.
    pub fn n(&self) -> u8
        ensures { result ≡ (board self.now).n }
    {
        self.n
    }

    // The threshold.
    pub fn t(&self) -> u8
        ensures { result ≡ (board self.now).t }
    {
        self.t
    }

    pub fn phase(&self) -> Phase
        ensures { result ≡ phase_of G.meaning (board self.now) }
    {
        self.phase
    }

    // Whether a record of a kind, by a writer and naming a second seat, is taken.
    pub fn has(&self, kind: Kind, writer: u8, second: u8) -> bool
        requires kind { is_indexed kind ≡ true }
        ensures { result ≡ is_taken (board self.now).taken kind writer second }
    {
        self.index.find(kind, writer, second).is_some()
    }

    // The value at a seat of the elements in a dealer's Deal or Exposure.
    fn value_in(&self, kind: Kind, dealer: u8, seat: u8) -> Option<G::Element>
        requires kind { (is_indexed kind ≡ true) × (layout_of kind ≡ Elements) }
        ensures { ValueIn G.meaning G.number_of (entry (board self.now).taken kind dealer 0) seat result }
    {
        let place = self.index.find(kind, dealer, 0)?;
        let elements = &self.area[..self.used];
        let count = self.t as usize + 1;
        let value = value_of_known::<G, Element<G, G::Element>>(elements, place + 5, count, seat);
        Some(value.value)
    }

    // The share in an Answer, an Objection or a Reveal.
    pub fn share_in(&self, kind: Kind, writer: u8, second: u8) -> Option<Share<G>>
        requires kind { (is_indexed kind ≡ true) × (layout_of kind ≡ SecondAndShare) }
        ensures { ShareIn (λ x. (G.scalar_of x.left.value, G.scalar_of x.right.value)) (entry (board self.now).taken kind writer second) result }
    {
        let place = self.index.find(kind, writer, second)?;
        let codes = &self.area[..self.used];
        Some(<Share<G> as Linear<G>>::known(codes, place + 6))
    }

    // A_0 in a dealer's Exposure.
    pub fn first_exposed(&self, dealer: u8) -> Option<G::Element>
        ensures { FirstIn G.meaning.unit G.number_of (exposure_of (board self.now) dealer) result }
    {
        let place = self.index.find(Kind::Exposure, dealer, 0)?;
        let codes = &self.area[..self.used];
        let first = <Element<G, G::Element> as Linear<G>>::known(codes, place + 5);
        Some(first.value)
    }

    // Whether an element is the value at a seat of those in a dealer's Deal or Exposure.
    fn is_value_in(&self, kind: Kind, dealer: u8, seat: u8, element: G::Element) -> bool
        requires kind { (is_indexed kind ≡ true) × (layout_of kind ≡ Elements) }
        ensures { result ≡ holds (entry (board self.now).taken kind dealer 0) (λ codes. G.number_of element == value_at (products G.meaning) codes seat) }
    {
        self.value_in(kind, dealer, seat)
            .is_some_and(move |value| element == value)
    }

    // Equation 1, for a dealer, a seat and a share.
    pub fn opens(&self, dealer: u8, seat: u8, share: Share<G>) -> bool
        ensures { result ≡ passes1 G.meaning (board self.now) dealer seat (G.scalar_of share.left.value, G.scalar_of share.right.value) }
    {
        // No power is worked out in vain.
        if !self.has(Kind::Deal, dealer, 0) {
            return false;
        }
        self.is_value_in(Kind::Deal, dealer, seat, commit::<G>(share))
    }

    // Equation 2.
    pub fn is_exposed(&self, dealer: u8, seat: u8, share: Share<G>) -> bool
        ensures { result ≡ passes2 G.meaning (board self.now) dealer seat (G.scalar_of share.left.value) }
    {
        if !self.has(Kind::Exposure, dealer, 0) {
            return false;
        }
        let power = power_of::<G>(G::g(), share.left.value);
        self.is_value_in(Kind::Exposure, dealer, seat, power)
    }

    // How many seats have a record of a kind taken that names a dealer.
    pub fn count_naming(&self, kind: Kind, dealer: u8) -> u8
        requires kind { is_indexed kind ≡ true }
        ensures { result ≡ count (board self.now).n (λ j. is_taken (board self.now).taken kind j dealer) }
    {
        (1..self.n + 1)
            .filter(|j| self.has(kind, *j, dealer))
            .count() as u8
    }

    // Whether a dealer has answered a seat truly, if that seat complained of it.
    fn has_answered(&self, dealer: u8, seat: u8) -> bool
        ensures { result ≡ (not (complained (board self.now) seat dealer) || answered G.meaning (board self.now) dealer seat) }
    {
        if !self.has(Kind::Complaint, seat, dealer) {
            return true;
        }
        self.index.is_true(dealer, seat)
    }

    // Whether a dealer has answered each complaint truly.
    fn has_answered_all(&self, dealer: u8) -> bool
        ensures { result ≡ every (board self.now).n (λ j. not (complained (board self.now) j dealer) || answered G.meaning (board self.now) dealer j) }
    {
        (1..self.n + 1).all(|j| self.has_answered(dealer, j))
    }

    // Whether a dealer is qualified, by the records taken so far.
    #[tactic(auto, unfolding(protocol::specs::Board::qualified))]
    pub fn is_qualified(&self, dealer: u8) -> bool
        ensures { result ≡ qualified G.meaning (board self.now) dealer }
    {
        if !self.has(Kind::Deal, dealer, 0) {
            return false;
        }
        if self.count_naming(Kind::Complaint, dealer) > self.t {
            return false;
        }
        self.has_answered_all(dealer)
    }

    // How many dealers are qualified.
    pub fn qualified_count(&self) -> u8
        ensures { result ≡ count (board self.now).n (qualified G.meaning (board self.now)) }
    {
        (1..self.n + 1).filter(|i| self.is_qualified(*i)).count() as u8
    }

    // Whether the phase of the objections has ended.
    fn are_objections_closed(&self) -> bool
        ensures { result ≡ nat_lt 5 (starts (board self.now).taken) }
    {
        matches!(self.phase, Phase::Revealing | Phase::Finished)
    }

    // Whether a dealer is contested: objected to or, once the objections are closed, without an Exposure.
    #[tactic(auto, unfolding(protocol::specs::Board::contested), using(crate::proofs::SeatLoops::some_count))]
    pub fn is_contested(&self, dealer: u8) -> bool
        ensures { result ≡ contested G.meaning (board self.now) dealer }
    {
        if !self.is_qualified(dealer) {
            return false;
        }
        if self.count_naming(Kind::Objection, dealer) > 0 {
            return true;
        }
        if !self.are_objections_closed() {
            return false;
        }
        !self.has(Kind::Exposure, dealer, 0)
    }

    // Whether a dealer has Reveals of t + 1 seats, if it is contested.
    fn is_revealed(&self, dealer: u8) -> bool
        ensures { result ≡ (not (contested G.meaning (board self.now) dealer) || nat_le ((board self.now).t + 1) (count (board self.now).n (λ j. revealed (board self.now) j dealer))) }
    {
        if !self.is_contested(dealer) {
            return true;
        }
        self.count_naming(Kind::Reveal, dealer) > self.t
    }

    // Whether each contested dealer has Reveals of t + 1 seats.
    pub fn are_all_revealed(&self) -> bool
        ensures { result ≡ all_revealed G.meaning (board self.now) }
    {
        (1..self.n + 1).all(|i| self.is_revealed(i))
    }
}
