//! A board with a slot for each item. It has one word, a counter, from which each draw takes the next number.
ghost use Rattle.std.specs.Prelude.{◌≡◌, ℕ, ◌+◌, ◌-◌, ◌<◌, ◌≤◌, ◌^◌, length, slice_get, IfOk, IfErr, IfSome, IfNone, Some, None};
ghost use Rattle.chunk_seats.specs.Tallies.{times};
ghost use Rattle.chunk_seats.specs.Claims.{fresh, claiming, spending, giving, joining};
ghost use Rattle.deal_board.specs.Held.{held, settled};

use crate::goods::Goods;
use atomic_table::{Join, Play, Refused, Split, Table, TableRule};
use chunk_seats::{ClaimView, Deal, Told};
use std::alloc::Global;
use std::marker::{Brand, Model, PhantomData};

// The rule of the counter, of the items at home and of what the seats know.
pub(crate) struct Serving<N> {
    of: PhantomData<N>,
}

impl<T, N: Goods<T>> TableRule<T, ClaimView, Deal> for Serving<N> {
    ghost use Rattle.chunk_seats.specs.Claims.{fresh};
    ghost use Rattle.deal_board.specs.Rule.{Served};

    ghost holds = { Served N.items N.good };

    ghost first = { λ d. fresh d.seats };
}

// A draw. C names the number of items.
struct Draw<C, N> {
    told: PhantomData<(C, N)>,
}

impl<T, C: Told, N: Goods<T>> Play<T, ClaimView> for Draw<C, N> {
    ghost use Rattle.deal_board.specs.Rule.{Deals};

    ghost then = { Deals N.items C.told };
}

// A seat is split. C names the share of the new seat.
struct Cut<C> {
    told: PhantomData<C>,
}

impl<C: Told> Split<ClaimView> for Cut<C> {
    ghost use Rattle.chunk_seats.specs.Claims.{fresh, giving};

    ghost left = { λ v. giving v C.told };

    ghost right = { λ v. fresh C.told };
}

// Two seats become one.
struct Glue;

impl Join<ClaimView> for Glue {
    ghost use Rattle.chunk_seats.specs.Claims.{fresh, joining};

    ghost both = { joining };

    ghost spent = { fresh 0 };
}

/// Items that workers draw, each once, and put back. Threads share the board by reference, and each has a seat of its own.
#[derive(Drop)]
pub struct DealBoard<T, N: Goods<T>> {
    pub(crate) table: Table<T, ClaimView, Deal, Serving<N>, Global>,
    pub(crate) count: u64,
}

impl<T, N: Goods<T>> Model for DealBoard<T, N> {
    ghost use Rattle.std.specs.Prelude.{◌≡◌, length};
    ghost use Rattle.deal_board.specs.Held.{Board};

    ghost Value = { Board };

    ghost view = { λ b. record { board = b.table.shared.table_id; count = b.table.shared.key.chunks; seats = b.table.shared.key.seats } };

    ghost invariant = { λ b. (b.table.shared.table_id.words ≡ 1) × (b.table.shared.table_id.slots ≡ b.count) × (b.count ≡ b.table.shared.key.chunks) × (b.count ≡ length N.items) };
}

/// What a worker draws with. It has at most one item in its hand.
#[derive(Drop)]
pub struct Seat<T> {
    pub(crate) token: atomic_table::Seat<T, ClaimView>,
}

impl<T> Model for Seat<T> {
    ghost use Rattle.std.specs.Prelude.{◌<◌, ◌≤◌};
    ghost use Rattle.deal_board.specs.Held.{Held, held, in_hand};
    ghost use Rattle.deal_board.specs.Rule.{Carries};

    ghost Value = { Held T };

    ghost view = { λ s. held s.token.table_id s.token.me.0 (in_hand s.token.me.1) };

    ghost invariant = { λ s. Carries s.token.me.0 s.token.me.1 × (0 < s.token.me.0.weight) × (s.token.me.0.share ≤ s.token.me.0.weight) };
}

impl<T, N: Goods<T>> DealBoard<T, N> {
    /// A board of these items, and its first seat, from which others are split: it has the whole share and an empty hand. Where
    /// there is no memory, the items come back.
    pub fn new(
        alloc: Global,
        items: Vec<T>,
        seats: u32,
    ) -> Result<(DealBoard<T, N>, Seat<T>), Vec<T>>
        requires named { items.items ≡ N.items }
        requires few { length items.items < 2 ^ 62 }
        requires seats { 1 ≤ seats }
        ensures ok { IfOk result (λ r. (r.0.count ≡ length items.items) × (r.0.seats ≡ seats) × (r.1 ≡ held r.0.board (fresh seats) None)) }
        ensures err { IfErr result (λ v. v.items ≡ items.items) }
    {
        let count = items.len() as u64;
        let deal = Deal {
            chunks: count,
            seats: u64::from(seats),
        };
        match Table::new(alloc, &[0], items, &deal) {
            Ok((table, token)) => Ok((DealBoard { table, count }, Seat { token })),
            Err(Refused { slots }) => Err(slots),
        }
    }

    fn draw<C: Told>(&self, seat: &mut Seat<T>) -> u64
        requires count { C.told ≡ self.now.count }
        requires board { seat.old.board ≡ self.now.board }
        requires unspent { 0 < seat.old.view.share }
        requires good { IfSome seat.old.hand (λ h. N.good h.0 h.1) }
        ensures board { seat.new.board ≡ seat.old.board }
        ensures drawn { result < self.now.count →
            (seat.new.view ≡ claiming (settled seat.old.view) result)
            × (times result seat.old.view.claimed ≡ 0)
            × (length seat.old.view.claimed < self.now.count)
            × ((x : T) × (seat.new.hand ≡ Some (result, x)) × (slice_get N.items result ≡ Some x)) }
        ensures spent { self.now.count ≤ result → (seat.new.view ≡ spending (settled seat.old.view)) × (seat.new.hand ≡ None) }
    {
        self.table
            .shared
            .fetch_add::<Draw<C, N>>(&mut seat.token, 0, 1)
    }

    /// Puts what is in the seat's hand back, and draws the next number. `Some` comes exactly where it is an item's, which no seat
    /// had drawn before and which is then in the hand; with `None` the seat is spent, and draws no more.
    pub fn deal(&self, seat: &mut Seat<T>) -> Option<u64>
        requires board { seat.old.board ≡ self.now.board }
        requires unspent { 0 < seat.old.view.share }
        requires good { IfSome seat.old.hand (λ h. N.good h.0 h.1) }
        ensures some { IfSome result (λ c.
            (c < self.now.count)
            × ((x : T) × (seat.new ≡ held seat.old.board (claiming (settled seat.old.view) c) (Some (c, x))) × (slice_get N.items c ≡ Some x))
            × (times c seat.old.view.claimed ≡ 0)
            × (length seat.old.view.claimed < self.now.count)) }
        ensures none { IfNone result (seat.new ≡ held seat.old.board (spending (settled seat.old.view)) None) }
    {
        let drawn = self.draw::<Brand>(seat);
        if drawn < self.count {
            Some(drawn)
        } else {
            None
        }
    }

    fn cut<C: Told>(&self, seat: &mut Seat<T>, n: u32) -> Seat<T>
        requires told { C.told ≡ n }
        requires board { seat.old.board ≡ self.now.board }
        requires part { (1 ≤ n) × (n < seat.old.view.share) }
        requires empty { seat.old.hand ≡ None }
        ensures kept { seat.new ≡ held seat.old.board (giving seat.old.view n) None }
        ensures given { result ≡ held seat.old.board (fresh n) None }
    {
        Seat {
            token: self.table.shared.split_seat::<Cut<C>>(&mut seat.token),
        }
    }

    /// Splits off a seat that has n of this seat's share and has drawn nothing.
    pub fn split(&self, seat: &mut Seat<T>, n: u32) -> Seat<T>
        requires board { seat.old.board ≡ self.now.board }
        requires part { (1 ≤ n) × (n < seat.old.view.share) }
        requires empty { seat.old.hand ≡ None }
        ensures kept { seat.new ≡ held seat.old.board (giving seat.old.view n) None }
        ensures given { result ≡ held seat.old.board (fresh n) None }
    {
        self.cut::<Brand>(seat, n)
    }

    /// Takes in what another seat knows, and its share. Where one of the two was spent, this one is.
    pub fn join(&self, seat: &mut Seat<T>, other: Seat<T>)
        requires board { (seat.old.board ≡ self.now.board) × (other.board ≡ self.now.board) }
        requires empty { (seat.old.hand ≡ None) × (other.hand ≡ None) }
        ensures { seat.new ≡ held seat.old.board (joining seat.old.view other.view) None }
    {
        let Seat { token } = other;
        self.table.shared.join_seat::<Glue>(&mut seat.token, token);
    }
}
