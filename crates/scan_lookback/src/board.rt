//! The board rule: a word for each chunk, on which workers publish sums and prefixes and from which they read those of others.
ghost use Rattle.std.specs.Prelude.{◌≡◌, ℕ, ◌+◌, ◌<◌, ◌≤◌, ◌^◌, All, length, IfOk, slice_index};
ghost use Rattle.chunk_seats.specs.Tallies.{times};
ghost use Rattle.word_monoid.specs.Folds.{prefix_of};
ghost use Rattle.scan_lookback.specs.Views.{blank, showing, sealing, looking, leaving, uniting};
ghost use Rattle.scan_lookback.specs.Posting.{Says, Status};
ghost use Rattle.scan_lookback.specs.LookSteps.{FoundNothing, LastLoaded};
ghost use Rattle.scan_lookback.specs.Named.{Names};
ghost use Rattle.scan_lookback.specs.Held.{held};
ghost use Rattle.scan_lookback.specs.Found.{IsSum, IsPrefix};

use crate::views::{Chunks, Codes, LookView};
use crate::words::{prefix_code, sum_code};
use atomic_table::{Join, Play, Split, Table, TableRule};
use chunk_seats::Told;
use std::alloc::{AllocError, Global};
use std::marker::{Brand, Model, PhantomData};
use word_monoid::WordMonoid;

// The rule of the words and of what the seats know. N names the codes.
struct Posting<N> {
    of: PhantomData<N>,
}

impl<N: Codes> TableRule<(), LookView, u64> for Posting<N> {
    ghost use Rattle.scan_lookback.specs.Posting.{Posted};
    ghost use Rattle.scan_lookback.specs.Views.{blank};

    ghost holds = { Posted N.sum_codes N.prefix_codes };

    ghost first = { blank };
}

// A sum is published.
struct Show;

impl Play<(), LookView> for Show {
    ghost use Rattle.scan_lookback.specs.LookSteps.{Shows};

    ghost then = { Shows };
}

// A prefix is published.
struct Seal;

impl Play<(), LookView> for Seal {
    ghost use Rattle.scan_lookback.specs.LookSteps.{Seals};

    ghost then = { Seals };
}

// A word is loaded.
struct Find<N> {
    of: PhantomData<N>,
}

impl<N: Codes> Play<(), LookView> for Find<N> {
    ghost use Rattle.scan_lookback.specs.LookSteps.{Finds};

    ghost then = { Finds N.sum_codes N.prefix_codes };
}

// A seat is split. C names the share of the new seat.
struct Leave<C> {
    told: PhantomData<C>,
}

impl<C: Told> Split<LookView> for Leave<C> {
    ghost use Rattle.scan_lookback.specs.Views.{blank, leaving};

    ghost left = { λ v. leaving v C.told };

    ghost right = { λ v. blank C.told };
}

// Two seats become one.
struct Unite;

impl Join<LookView> for Unite {
    ghost use Rattle.scan_lookback.specs.Views.{blank, uniting};

    ghost both = { uniting };

    ghost spent = { blank 0 };
}

/// The status words of the chunks whose sums N names. Threads share the board by reference, and each has a seat of its own.
#[derive(Drop)]
pub struct ScanBoard<'a, M: WordMonoid, N: Chunks<M::Item>> {
    monoid: &'a M,
    table: Table<(), LookView, u64, Posting<N>, Global>,
    chunks: u64,
}

impl<'a, M: WordMonoid, N: Chunks<M::Item>> Model for ScanBoard<'a, M, N> {
    ghost use Rattle.std.specs.Prelude.{◌≡◌, max, length};
    ghost use Rattle.scan_lookback.specs.Held.{Board};
    ghost use Rattle.scan_lookback.specs.Named.{Names};

    ghost Value = { Board M };

    ghost view = { λ b. record { board = b.table.shared.table_id; monoid = b.monoid.now; chunks = b.chunks; seats = b.table.shared.key } };

    ghost invariant = { λ b.
        (b.table.shared.table_id.words ≡ max b.chunks 1)
        × (b.table.shared.table_id.slots ≡ 0)
        × (b.chunks ≡ length N.sums)
        × Names (M.ops b.monoid.now) N.sums N.sum_codes N.prefix_codes };
}

/// What a worker publishes and looks with. It knows what it has published and what each of its loads found.
#[derive(Drop)]
pub struct Seat {
    token: atomic_table::Seat<(), LookView>,
}

impl Model for Seat {
    ghost use Rattle.std.specs.Prelude.{◌≡◌, ◌<◌, []};
    ghost use Rattle.scan_lookback.specs.Held.{Held, held};

    ghost Value = { Held };

    ghost view = { λ s. held s.token.table_id s.token.me.0 };

    ghost invariant = { λ s. (s.token.me.1 ≡ []) × (0 < s.token.me.0.share) };
}

impl<'a, M: WordMonoid, N: Chunks<M::Item>> ScanBoard<'a, M, N> {
    // The monoid that the board's sums are of, and that N names them and their codes.
    pub(crate) fn monoid(&self) -> &M
        ensures same { result.now ≡ self.now.monoid }
        ensures named { Names (M.ops self.now.monoid) N.sums N.sum_codes N.prefix_codes }
        ensures chunks { self.now.chunks ≡ length N.sums }
    {
        self.monoid
    }

    /// A board for the sums that N names, on which nothing is published, and its first seat, from which others are split.
    pub fn new(
        alloc: Global,
        monoid: &'a M,
        chunks: u64,
        seats: u32,
    ) -> Result<(ScanBoard<'a, M, N>, Seat), AllocError>
        requires chunks { (chunks ≡ length N.sums) × (chunks < 2 ^ 62) }
        requires seats { 1 ≤ seats }
        requires names { Names (M.ops monoid.now) N.sums N.sum_codes N.prefix_codes }
        ensures { IfOk result (λ r. (r.0.monoid ≡ monoid.now) × (r.0.chunks ≡ chunks) × (r.0.seats ≡ seats) × (r.1 ≡ held r.0.board (blank seats))) }
    {
        let words = Vec::from_elem(alloc, 0u64, chunks.max(1) as usize)?;
        let (table, token) = Table::of_words(alloc, words.as_slice(), &u64::from(seats))?;
        Ok((
            ScanBoard {
                monoid,
                table,
                chunks,
            },
            Seat { token },
        ))
    }

    fn show_word(&self, seat: &mut Seat, c: u64, code: u64)
        requires board { seat.old.board ≡ self.now.board }
        requires chunk { c < self.now.chunks }
        requires sum { (code < 2 ^ 62) × (code ≡ slice_index N.sum_codes c) }
        ensures { seat.new ≡ held seat.old.board (showing seat.old.view c) }
    {
        self.table
            .shared
            .store::<Show>(&mut seat.token, c as usize, 4 * code + 1);
    }

    /// Publishes the sum of a chunk: one store.
    pub fn show(&self, seat: &mut Seat, c: u64, sum: M::Item)
        requires board { seat.old.board ≡ self.now.board }
        requires chunk { c < self.now.chunks }
        requires sum { IsSum (M.ops self.now.monoid) N.sums c sum }
        ensures { seat.new ≡ held seat.old.board (showing seat.old.view c) }
    {
        let code = sum_code::<M, N>(self.monoid(), c, sum);
        self.show_word(seat, c, code);
    }

    fn seal_word(&self, seat: &mut Seat, c: u64, code: u64)
        requires board { seat.old.board ≡ self.now.board }
        requires chunk { c < self.now.chunks }
        requires shown { 0 < times c seat.old.view.shown }
        requires prefix { (code < 2 ^ 62) × (code ≡ slice_index N.prefix_codes c) }
        ensures { seat.new ≡ held seat.old.board (sealing seat.old.view c) }
    {
        self.table
            .shared
            .store::<Seal>(&mut seat.token, c as usize, 4 * code + 2);
    }

    /// Publishes the join of the sums up to a chunk and with it: one store. The seat has shown the chunk before.
    pub fn seal(&self, seat: &mut Seat, c: u64, prefix: M::Item)
        requires board { seat.old.board ≡ self.now.board }
        requires chunk { c < self.now.chunks }
        requires shown { 0 < times c seat.old.view.shown }
        requires prefix { IsPrefix (M.ops self.now.monoid) N.sums c prefix }
        ensures { seat.new ≡ held seat.old.board (sealing seat.old.view c) }
    {
        let code = prefix_code::<M, N>(self.monoid(), c, prefix);
        self.seal_word(seat, c, code);
    }

    // Loads the word of a chunk, and notes it.
    pub(crate) fn load_word(&self, seat: &mut Seat, j: u64) -> u64
        requires board { seat.old.board ≡ self.now.board }
        requires chunk { j < self.now.chunks }
        ensures noted { seat.new ≡ held seat.old.board (looking seat.old.view j result) }
        ensures loaded { LastLoaded seat.new.view j result }
        ensures status { Status N.sum_codes N.prefix_codes j result }
        ensures never { result ≡ 0 → FoundNothing seat.old.view j }
    {
        self.table
            .shared
            .load::<Find<N>>(&mut seat.token, j as usize)
    }

    fn leave<C: Told>(&self, seat: &mut Seat, n: u32) -> Seat
        requires told { C.told ≡ n }
        requires board { seat.old.board ≡ self.now.board }
        requires part { (1 ≤ n) × (n < seat.old.view.share) }
        ensures kept { seat.new ≡ held seat.old.board (leaving seat.old.view n) }
        ensures given { result ≡ held seat.old.board (blank n) }
    {
        Seat {
            token: self.table.shared.split_seat::<Leave<C>>(&mut seat.token),
        }
    }

    /// Splits off a seat that has n of this seat's share and knows nothing.
    pub fn split(&self, seat: &mut Seat, n: u32) -> Seat
        requires board { seat.old.board ≡ self.now.board }
        requires part { (1 ≤ n) × (n < seat.old.view.share) }
        ensures kept { seat.new ≡ held seat.old.board (leaving seat.old.view n) }
        ensures given { result ≡ held seat.old.board (blank n) }
    {
        self.leave::<Brand>(seat, n)
    }

    /// Takes in what another seat knows, and its share.
    pub fn join(&self, seat: &mut Seat, other: Seat)
        requires board { (seat.old.board ≡ self.now.board) × (other.board ≡ self.now.board) }
        ensures { seat.new ≡ held seat.old.board (uniting seat.old.view other.view) }
    {
        let Seat { token } = other;
        self.table.shared.join_seat::<Unite>(&mut seat.token, token);
    }

    /// Takes the board apart. Each chunk that the seat has shown is one of the board's, each that it has sealed it has shown, and each word
    /// above 0 that it has loaded says its chunk's sum or prefix. Of a seat into which all others were joined, it has shown each chunk
    /// of which it has loaded such a word.
    pub fn close(self, seat: Seat)
        requires board { seat.board ≡ self.board }
        ensures shown { (c : ℕ) → 0 < times c seat.view.shown → c < self.entry.chunks }
        ensures sealed { (c : ℕ) → 0 < times c seat.view.sealed → 0 < times c seat.view.shown }
        ensures looked { All (λ p. 0 < p.1 → (p.0 < self.entry.chunks) × Says N.sum_codes N.prefix_codes p.0 p.1) seat.view.looked }
        ensures found { seat.view.share ≡ self.entry.seats → All (λ p. 0 < p.1 → 0 < times p.0 seat.view.shown) seat.view.looked }
    {
        let Seat { token } = seat;
        let ScanBoard {
            monoid: _,
            table,
            chunks: _,
        } = self;
        table.close_with(token).free();
    }
}
