//! The word that all threads share, and its seats.

ghost use Rattle.std.specs.Prelude.{◌≡◌, ◌+◌, ◌<◌, ◌^◌, ◌++◌, [], ◌∷◌, true, false, length, IfOk};
ghost use mathlib.Core.List.{IsPrefix};
ghost use Rattle.joint_history.specs.Views.{first, longer, next_caller, one_more, own, with_items, keeping, keeper, without, informed, copied};

use crate::view::View;
use atomic_table::{Join, Play, Split, Table, TableRule};
use std::alloc::{AllocError, Global};
use std::marker::{Brand, PhantomData};

/// Whose an item of a history is.
pub trait Owned {
    ghost use Rattle.std.specs.Prelude.{ℕ};

    ghost by: { Self → ℕ };
}

/// What is said to a step: the items that it puts at the end of the history. A call picks them.
pub trait Said<E> {
    ghost use Rattle.std.specs.Prelude.{List};

    ghost items: { List E };
}

impl<E> Said<E> for Brand {
    ghost use Rattle.std.specs.Prelude.{[]};

    ghost items = { [] };
}

/// The rule that each step on the word and on seats keeps.
pub struct Law;

impl<E: Owned> TableRule<(), View<E>, ()> for Law {
    ghost use Rattle.joint_history.specs.Views.{Kept, first};

    ghost holds = { λ _. Kept E.by };

    ghost first = { λ _. first };
}

struct Look;

impl<E: Owned> Play<(), View<E>> for Look {
    ghost use Rattle.joint_history.specs.Views.{Looks};

    ghost then = { Looks E.by };
}

struct Add<B> {
    of: PhantomData<B>,
}

impl<E: Owned, B: Said<E>> Play<(), View<E>> for Add<B> {
    ghost use Rattle.joint_history.specs.Views.{Adds};

    ghost then = { Adds E.by B.items };
}

struct Numbers;

impl<E> Split<View<E>> for Numbers {
    ghost use Rattle.joint_history.specs.Views.{one_more, next_caller};

    ghost left = { one_more };

    ghost right = { next_caller };
}

struct HandsOver;

impl<E> Split<View<E>> for HandsOver {
    ghost use Rattle.joint_history.specs.Views.{without, keeper};

    ghost left = { without };

    ghost right = { keeper };
}

impl<E> Join<View<E>> for HandsOver {
    ghost use Rattle.joint_history.specs.Views.{keeping, spent};

    ghost both = { keeping };

    ghost spent = { spent };
}

struct Tells;

impl<E> Split<View<E>> for Tells {
    ghost use Rattle.joint_history.specs.Views.{copied};

    ghost left = { λ v. v };

    ghost right = { copied };
}

impl<E> Join<View<E>> for Tells {
    ghost use Rattle.joint_history.specs.Views.{informed, spent};

    ghost both = { informed };

    ghost spent = { spent };
}

/// What one thread knows of a joint history. It has no bytes: what it knows stands in proofs.
pub type Seat<E> = atomic_table::Seat<(), View<E>>;

/// A history that several threads make. What is kept of it is its length, in a word that they share.
#[derive(Drop)]
pub struct Joint<E: Owned> {
    table: Table<(), View<E>, (), Law, Global>,
    ghost one_word: { table.shared.table_id.words ≡ 1 },
}

impl<E: Owned> Joint<E> {
    ghost use Rattle.joint_history.specs.Words.{word_of};

    /// An empty history, and the seat that keeps it. `AllocError` where there is no memory for the word.
    pub fn open(alloc: Global) -> Result<(Joint<E>, Seat<E>), AllocError>
        ensures { IfOk result (λ r. (r.1.table_id ≡ word_of r.0) × (r.1.me ≡ (first, []))) }
    {
        let (table, seat) = Table::of_words(alloc, &[0], &())?;
        Ok((Joint { table }, seat))
    }

    /// The seat of the next caller, made by the seat that keeps the history.
    pub fn caller(&self, seat: &mut Seat<E>) -> Seat<E>
        requires own { seat.old.table_id ≡ word_of self.now }
        requires keeps { seat.old.me.0.keeps ≡ true }
        ensures made { (result.table_id ≡ seat.old.table_id) × (result.me ≡ (next_caller seat.old.me.0, [])) }
        ensures kept { (seat.new.table_id ≡ seat.old.table_id) × (seat.new.me ≡ (one_more seat.old.me.0, seat.old.me.1)) }
    {
        self.table.shared.split_seat::<Numbers>(seat)
    }

    /// A caller's seat puts an item at the end of the history, which another seat keeps, and both have seen all of it.
    pub fn append<B: Said<E>>(&self, keeper: &mut Seat<E>, caller: &mut Seat<E>, item: &E)
        requires said { B.items ≡ item.now ∷ [] }
        requires own { (keeper.old.table_id ≡ word_of self.now) × (caller.old.table_id ≡ word_of self.now) }
        requires keeps { keeper.old.me.0.keeps ≡ true }
        requires calls { (caller.old.me.0.calls ≡ true) × (caller.old.me.0.keeps ≡ false) }
        requires number { E.by item.now ≡ caller.old.me.0.number }
        requires room { length keeper.old.me.0.seen + 1 < 2 ^ 64 }
        ensures keeper_table { keeper.new.table_id ≡ keeper.old.table_id }
        ensures keeper_keeps { keeper.new.me.0.keeps ≡ true }
        ensures keeper_slots { keeper.new.me.1 ≡ [] }
        ensures keeper_seen { keeper.new.me.0.seen ≡ keeper.old.me.0.seen ++ item.now ∷ [] }
        ensures keeper_made { keeper.new.me.0.made ≡ keeper.old.me.0.made }
        ensures caller_table { caller.new.table_id ≡ caller.old.table_id }
        ensures caller_calls { caller.new.me.0.calls ≡ true }
        ensures caller_keeps { caller.new.me.0.keeps ≡ false }
        ensures caller_slots { caller.new.me.1 ≡ caller.old.me.1 }
        ensures caller_number { caller.new.me.0.number ≡ caller.old.me.0.number }
        ensures caller_seen { caller.new.me.0.seen ≡ keeper.old.me.0.seen ++ item.now ∷ [] }
        ensures begins { IsPrefix caller.old.me.0.seen keeper.old.me.0.seen }
        ensures own_items { own E.by caller.old.me.0.number keeper.old.me.0.seen ≡ own E.by caller.old.me.0.number caller.old.me.0.seen }
    {
        let shared = &self.table.shared;
        let part = shared.split_seat::<HandsOver>(keeper);
        shared.join_seat::<HandsOver>(caller, part);
        shared.fetch_add::<Add<B>>(caller, 0, 1);
        *keeper = shared.split_seat::<HandsOver>(caller);
    }

    /// A caller's seat sees all of the history, which another seat keeps.
    pub fn catch_up(&self, keeper: &mut Seat<E>, caller: &mut Seat<E>)
        requires own { (keeper.old.table_id ≡ word_of self.now) × (caller.old.table_id ≡ word_of self.now) }
        requires keeps { keeper.old.me.0.keeps ≡ true }
        requires calls { (caller.old.me.0.calls ≡ true) × (caller.old.me.0.keeps ≡ false) }
        ensures keeper_table { keeper.new.table_id ≡ keeper.old.table_id }
        ensures keeper_keeps { keeper.new.me.0.keeps ≡ true }
        ensures keeper_slots { keeper.new.me.1 ≡ [] }
        ensures keeper_seen { keeper.new.me.0.seen ≡ keeper.old.me.0.seen }
        ensures keeper_made { keeper.new.me.0.made ≡ keeper.old.me.0.made }
        ensures caller_table { caller.new.table_id ≡ caller.old.table_id }
        ensures caller_calls { caller.new.me.0.calls ≡ true }
        ensures caller_keeps { caller.new.me.0.keeps ≡ false }
        ensures caller_slots { caller.new.me.1 ≡ caller.old.me.1 }
        ensures caller_number { caller.new.me.0.number ≡ caller.old.me.0.number }
        ensures caller_seen { caller.new.me.0.seen ≡ keeper.old.me.0.seen }
        ensures begins { IsPrefix caller.old.me.0.seen keeper.old.me.0.seen }
        ensures own_items { own E.by caller.old.me.0.number keeper.old.me.0.seen ≡ own E.by caller.old.me.0.number caller.old.me.0.seen }
    {
        let shared = &self.table.shared;
        let part = shared.split_seat::<HandsOver>(keeper);
        shared.join_seat::<HandsOver>(caller, part);
        shared.load::<Look>(caller, 0);
        *keeper = shared.split_seat::<HandsOver>(caller);
    }

    /// A seat takes in what another has seen.
    pub fn tell(&self, from: &mut Seat<E>, to: &mut Seat<E>)
        requires own { (from.old.table_id ≡ word_of self.now) × (to.old.table_id ≡ word_of self.now) }
        requires keeps { to.old.me.0.keeps ≡ false }
        ensures from { (from.new.table_id ≡ from.old.table_id) × (from.new.me ≡ from.old.me) }
        ensures to { (to.new.table_id ≡ to.old.table_id) × (to.new.me ≡ (informed to.old.me.0 from.old.me.0, to.old.me.1)) }
        ensures begins { IsPrefix to.old.me.0.seen to.new.me.0.seen × IsPrefix from.old.me.0.seen to.new.me.0.seen }
        ensures own_items { to.old.me.0.calls ≡ true → own E.by to.old.me.0.number to.new.me.0.seen ≡ own E.by to.old.me.0.number to.old.me.0.seen }
    {
        let shared = &self.table.shared;
        let copy = shared.split_seat::<Tells>(from);
        shared.join_seat::<Tells>(to, copy);
        shared.load::<Look>(to, 0);
    }
}
