//! The turn itself.
ghost use Rattle.std.specs.Prelude.{◌≡◌, ◌<◌, vec_len, IfOk};

use crate::NoMemory;
use crate::origin::Origin;
use crate::pass::Pass;
use crate::rule::{CutView, FirstView, NewView, TurnRule, WholeView};
use crate::stage::Doing;
use crate::steps::{Cut, Draw, Give, Look, Tickets, Whole};
use atomic_table::{Refused, Table};
use crossbeam_utils::sync::EventCount;
use std::alloc::{AllocFailed, Global};
use std::hint::spin_loop;
use std::sync::Wait;

// The word that counts tickets drawn, the word of the ticket that is served, and the slot of the state.
const DRAWN: usize = 0;

const SERVED: usize = 1;

const STATE: usize = 0;

// Tickets that lie this far apart wait at one place. With no more passes than that, each waits alone.
const PLACES: u32 = 64;

// How often a pass looks for its ticket before it sleeps, and how many tickets may come first while it does.
const LOOKS: u32 = 100;

const NEAR: u64 = 3;

/// A lock that owns a state, which is moved out to the pass whose turn it is. It has no drop: it is spent by `close`.
pub struct Turn<R: TurnRule> {
    table: Table<Option<R::State>, Doing<R::State, R::View>, Origin<R::View>, Tickets<R>, Global>,
    // Where passes wait for the turn, each at the place of its ticket.
    places: Vec<EventCount>,
    events: Vec<EventCount>,
    ghost counts: { (table.shared.table_id.words ≡ 2) × (table.shared.table_id.slots ≡ 1) },
    ghost has_places: { vec_len places ≡ 64 },
}

impl<R: TurnRule> Turn<R> {
    ghost use Rattle.std.specs.Prelude.{ℕ, ◌≤◌, ◌%◌, ◌^◌, [], ◌∷◌, IfErr, IsOk, OnOk, OnErr};
    ghost use Rattle.sv_turn.specs.Passes.{pass_view, IsOut, HasDrawn, HasEntered, MayLeave, IsSamePass, IsPassOf, first_view, turn_events};
    ghost use Rattle.sv_turn.specs.Steps.{IsKept};

    /// A turn with this state at home, and the one pass, which has the whole weight. The events are the numbers below `events`.
    pub fn new<F: FirstView<R::View>>(
        alloc: Global,
        state: R::State,
        events: u32,
    ) -> Result<(Turn<R>, Pass<R>), (R::State, NoMemory)>
        requires rule { R.holds state (F.first ∷ []) }
        requires weight { (0 < R.weight F.first) × (R.weight F.first ≤ 2 ^ 63) }
        requires events { 0 < events }
        ensures turn { IfOk result (λ r. (first_view r.0 ≡ F.first) × (turn_events r.0 ≡ events)) }
        ensures pass { IfOk result (λ r. IsPassOf r.0 r.1 × IsOut r.1 × (pass_view r.1 ≡ F.first)) }
        ensures err { IfErr result (λ e. e.0 ≡ state) }
    {
        let Ok(places) = event_counts(alloc, PLACES) else {
            return Err((state, NoMemory));
        };
        let Ok(events) = event_counts(alloc, events) else {
            return Err((state, NoMemory));
        };
        let mut home = Vec::new(alloc);
        if let Err(AllocFailed { value }) = home.push(Some(state)) {
            home.destroy_empty();
            return Err((value.unwrap(), NoMemory));
        }
        match Table::new(alloc, &[0, 0], home, &Origin::of::<F>()) {
            Ok((table, seat)) => Ok((
                Turn {
                    table,
                    places,
                    events,
                },
                Pass { seat },
            )),
            Err(Refused { slots: mut home }) => {
                let state = home.pop().unwrap().unwrap();
                home.destroy_empty();
                Err((state, NoMemory))
            }
        }
    }

    /// Waits for the turn and takes the state out. The pass is inside from then on, until it leaves.
    pub fn enter<W: Wait>(&self, rt: &W, pass: &mut Pass<R>) -> R::State
        requires own { IsPassOf self.now pass.old }
        requires away { IsOut pass.old }
        ensures same { IsSamePass pass.old pass.new × (pass_view pass.new ≡ pass_view pass.old) }
        ensures inside { HasEntered pass.new result }
        ensures holds { IsKept R.holds result (pass_view pass.new) }
    {
        let ticket = self
            .table
            .shared
            .fetch_add::<Draw>(&mut pass.seat, DRAWN, 1);
        self.come_in(rt, pass, ticket)
    }

    // Waits until the ticket is served.
    fn come_in<W: Wait>(&self, rt: &W, pass: &mut Pass<R>, ticket: u64) -> R::State
        requires own { IsPassOf self.now pass.old }
        requires waits { HasDrawn pass.old ticket }
        ensures same { IsSamePass pass.old pass.new × (pass_view pass.new ≡ pass_view pass.old) }
        ensures inside { HasEntered pass.new result }
        ensures holds { IsKept R.holds result (pass_view pass.new) }
    {
        let shared = &self.table.shared;
        for _ in rt.forever() {
            if shared.load::<Look<R>>(&mut pass.seat, SERVED) == ticket {
                return shared.exchange(&mut pass.seat, STATE, None).unwrap();
            }
            self.wait_for(rt, ticket);
        }
        unreachable!()
    }

    // Sleeps until the ticket may be served. Turns are short, so it looks for a while first.
    fn wait_for<W: Wait>(&self, rt: &W, ticket: u64) {
        if self.is_served_soon(ticket) {
            return;
        }
        let key = self.place_of(ticket).prepare_wait();
        if self.table.shared.peek(SERVED) != ticket {
            key.wait(rt);
        }
    }

    // Looks for the ticket, as long as few others come first.
    fn is_served_soon(&self, ticket: u64) -> bool {
        for _ in 0..LOOKS {
            let ahead = ticket.wrapping_sub(self.table.shared.peek(SERVED));
            if ahead == 0 || ahead > NEAR {
                return ahead == 0;
            }
            spin_loop();
        }
        false
    }

    // Where the pass with this ticket waits.
    fn place_of(&self, ticket: u64) -> &EventCount {
        &self.places[(ticket % u64::from(PLACES)) as usize]
    }

    /// Puts the state back and gives the turn to the next ticket. The pass that waits with it is woken; where no more
    /// than 64 passes wait, no other is.
    pub fn leave<N: NewView<R::View>>(&self, pass: &mut Pass<R>, state: R::State)
        requires own { IsPassOf self.now pass.old }
        requires weight { R.weight (N.next (pass_view pass.old)) ≡ R.weight (pass_view pass.old) }
        requires rule { MayLeave R.holds pass.old state (N.next (pass_view pass.old)) }
        ensures same { IsSamePass pass.old pass.new }
        ensures away { IsOut pass.new }
        ensures view { pass_view pass.new ≡ N.next (pass_view pass.old) }
    {
        let shared = &self.table.shared;
        match shared.exchange(&mut pass.seat, STATE, Some(state)) {
            None => {}
            Some(_) => unreachable!(),
        }
        let served = shared.fetch_add::<Give<N>>(&mut pass.seat, SERVED, 1);
        self.place_of(served.wrapping_add(1)).notify_all();
    }

    /// Does what `leave` does, sleeps until a wake of the event, and enters again. It may also come back for no reason, and
    /// other passes may have had the turn in between: look again at what was waited for.
    pub fn sleep_on<N: NewView<R::View>, W: Wait>(
        &self,
        rt: &W,
        pass: &mut Pass<R>,
        state: R::State,
        event: u32,
    ) -> R::State
        requires own { IsPassOf self.now pass.old }
        requires event { event < turn_events self.now }
        requires weight { R.weight (N.next (pass_view pass.old)) ≡ R.weight (pass_view pass.old) }
        requires rule { MayLeave R.holds pass.old state (N.next (pass_view pass.old)) }
        ensures same { IsSamePass pass.old pass.new }
        ensures view { pass_view pass.new ≡ N.next (pass_view pass.old) }
        ensures inside { HasEntered pass.new result }
        ensures holds { IsKept R.holds result (pass_view pass.new) }
    {
        let key = self.events[event as usize].prepare_wait();
        self.leave::<N>(pass, state);
        key.wait(rt);
        self.enter(rt, pass)
    }

    /// Wakes all that sleep on the event, or are about to. It needs no pass.
    pub fn wake(&self, event: u32)
        requires { event < turn_events self.now }
    {
        self.events[event as usize].notify_all();
    }

    /// Cuts what the pass stands for in two. The new pass has the right part. It takes no memory, so it is never refused.
    pub fn split<C: CutView<R::View>>(&self, pass: &mut Pass<R>) -> Result<Pass<R>, NoMemory>
        requires own { IsPassOf self.now pass.old }
        requires away { IsOut pass.old }
        requires cuts { R.cuts (pass_view pass.old) (C.left (pass_view pass.old)) (C.right (pass_view pass.old)) }
        ensures same { IsSamePass pass.old pass.new × IsOut pass.new }
        ensures left { OnOk result (pass_view pass.new ≡ C.left (pass_view pass.old)) }
        ensures right { IfOk result (λ other. IsPassOf self.now other × IsOut other × (pass_view other ≡ C.right (pass_view pass.old))) }
        ensures err { OnErr result (pass_view pass.new ≡ pass_view pass.old) }
        ensures always { IsOk result }
    {
        let seat = self.table.shared.split_seat::<Cut<C>>(&mut pass.seat);
        Ok(Pass { seat })
    }

    /// Puts what two passes stand for together. The other pass is spent.
    pub fn join<J: WholeView<R::View>>(&self, pass: &mut Pass<R>, other: Pass<R>)
        requires own { IsPassOf self.now pass.old × IsPassOf self.now other }
        requires away { IsOut pass.old × IsOut other }
        requires cuts { R.cuts (J.whole (pass_view pass.old) (pass_view other)) (pass_view pass.old) (pass_view other) }
        ensures same { IsSamePass pass.old pass.new × IsOut pass.new }
        ensures view { pass_view pass.new ≡ J.whole (pass_view pass.old) (pass_view other) }
    {
        self.table
            .shared
            .join_seat::<Whole<R, J>>(&mut pass.seat, other.into_seat());
    }

    /// Gives the state back, by the one pass that has the whole weight.
    pub fn close(self, pass: Pass<R>) -> R::State
        requires own { IsPassOf self pass }
        requires away { IsOut pass }
        requires whole { R.weight (pass_view pass) ≡ R.weight (first_view self) }
        ensures { R.holds result (pass_view pass ∷ []) }
    {
        let Turn {
            table,
            places: _,
            events: _,
        } = self;
        let mut closed = table.close_with(pass.into_seat());
        let home = closed.take(STATE);
        closed.free();
        home.unwrap()
    }
}

// As many event counts, on which no one waits.
fn event_counts(alloc: Global, count: u32) -> Result<Vec<EventCount>, NoMemory>
    ensures { IfOk result (λ counts. vec_len counts ≡ count) }
{
    let mut counts = Vec::with_capacity(alloc, count as usize)?;
    for _ in 0..count {
        counts.push(EventCount::new())?;
    }
    Ok(counts)
}
