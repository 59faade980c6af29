//! Workers that mark side by side, and what the words then are.

ghost use Rattle.std.specs.Prelude.{◌≡◌, ◌↔◌, ℕ, ◌+◌, ◌*◌, ◌<◌, true, [], length, All, Contains, IfOk, vec_len};
ghost use Rattle.qm_crew.specs.Views.{leader, worker, IsSet};
ghost use Rattle.qm_crew.specs.Crews.{AreWithin, IsReady, IsDone, AreMarked, places_of, places_in, AreFrom, AreUnion};

use crate::board::{Board, BoardTable, Cut, MarkSeat, mark};
use crate::calls::Marks;
use qm_base::Gate;
use std::alloc::{AllocError, Global};
use std::thread;
use std::thread::Threads;

/// A worker with a seat of its own, and the places that it marks.
#[derive(Drop)]
pub struct Marker {
    pub seat: MarkSeat,
    pub places: Vec<u64>,
}

impl Marker {
    /// Marks all places in order, each by one step. It is the crew's member `number`, counted from 0, and calls the gate's `pass` before each mark and once after the last. It takes no memory.
    pub fn mark<G: Gate>(&mut self, gate: &G, board: &Board, number: usize)
        requires { IsReady board.now.table_id self.old }
        ensures done { IsDone board.now.table_id self.new }
        ensures same { self.new.places.items ≡ self.old.places.items }
    {
        mark_places(gate, board, number, &mut self.seat, &self.places);
    }
}

// Marks places in order, by a seat that has marked nothing yet.
fn mark_places<G: Gate>(gate: &G, board: &Board, number: usize, seat: &mut MarkSeat, places: &[u64])
    requires table { seat.old.table_id ≡ board.now.table_id }
    requires fresh { seat.old.me ≡ (worker [], []) }
    requires within { AreWithin board.now.table_id.words places.now }
    ensures table { seat.new.table_id ≡ seat.old.table_id }
    ensures marked { seat.new.me ≡ (worker places.now, []) }
{
    let mut step = 0;
    for place in places {
        gate.pass(number, step);
        mark(board, seat, *place);
        step += 1;
    }
    gate.pass(number, step);
}

/// Has each member mark its places, side by side. It starts as many threads as there are members, less one; if none can be made, members work one after the other.
pub fn mark_all<R: Threads + Sync, G: Gate>(rt: &R, gate: &G, board: &Board, crew: &mut [Marker])
    requires { All (IsReady board.now.table_id) crew.old }
    ensures { AreMarked board.now.table_id crew.old crew.new }
{
    let threads = crew.len().max(1);
    thread::for_each_mut(
        rt,
        crew,
        threads,
        &|i: usize, marker: &mut Marker|
            requires { IsReady board.now.table_id marker.now }
        { marker.mark(gate, board, i) },
    );
}

/// Has each member mark its places, one after the other, in the thread of the caller.
pub fn mark_each<G: Gate>(gate: &G, board: &Board, crew: &mut [Marker])
    requires { All (IsReady board.now.table_id) crew.old }
    ensures { AreMarked board.now.table_id crew.old crew.new }
{
    for i in 0..crew.len() {
        crew[i].mark(gate, board, i);
    }
}

// Each list gets a seat of its own, split off the leading one.
fn seat_crew(
    alloc: Global,
    board: &Board,
    lead: &mut MarkSeat,
    lists: Vec<Vec<u64>>,
) -> Result<Vec<Marker>, AllocError>
    requires table { lead.old.table_id ≡ board.now.table_id }
    requires some { 0 < board.now.table_id.words }
    requires lead { lead.old.me ≡ (leader [] 0, []) }
    requires within { All (λ l. AreWithin board.now.table_id.words l.items) lists.items }
    ensures table { lead.new.table_id ≡ lead.old.table_id }
    ensures lead { IfOk result (λ crew. lead.new.me ≡ (leader [] (vec_len crew), [])) }
    ensures ready { IfOk result (λ crew. All (IsReady board.now.table_id) crew.items) }
    ensures same { IfOk result (λ crew. places_of crew.items ≡ places_in lists.items) }
{
    let mut crew = Vec::new(alloc);
    for places in lists {
        let seat = board.split_seat::<Cut>(lead);
        crew.push(Marker { seat, places })?;
    }
    Ok(crew)
}

// The leading seat takes in each member's, with its marks.
fn gather(board: &Board, lead: &mut MarkSeat, mut crew: Vec<Marker>)
    requires table { lead.old.table_id ≡ board.now.table_id }
    requires some { 0 < board.now.table_id.words }
    requires lead { lead.old.me ≡ (leader [] (vec_len crew), []) }
    requires done { All (IsDone board.now.table_id) crew.items }
    ensures table { lead.new.table_id ≡ lead.old.table_id }
    ensures lead { (lead.new.me.0.lead ≡ true) × (lead.new.me.0.out ≡ 0) }
    ensures marks { AreFrom lead.new.me.0.marks (places_of crew.items) }
{
    while let Some(marker) = crew.pop() {
        let Marker { seat, places: _ } = marker;
        board.join_seat::<Cut>(lead, seat);
    }
}

// The words of a board at which no other seat is out.
fn copy_out(table: BoardTable, lead: MarkSeat, bits: &mut [u64])
    requires table { lead.table_id ≡ table.shared.table_id }
    requires long { length bits.old ≡ table.shared.table_id.words }
    requires no_slots { table.shared.table_id.slots ≡ 0 }
    requires lead { (lead.me.0.lead ≡ true) × (lead.me.0.out ≡ 0) }
    ensures long { length bits.new ≡ length bits.old }
    ensures bits { (word bit : ℕ) → word < length bits.old → bit < 64
        → IsSet bits.new word bit ↔ Contains lead.me.0.marks (64 * word + bit) }
{
    let closed = table.close_with(lead);
    for i in 0..bits.len() {
        bits[i] = closed.word(i);
    }
    closed.free();
}

/// So many words of 64 places each, in which a bit is set exactly if some list has its place. Each list is one member's, and `marks` has the crew mark, in one call. It takes memory for the words twice, and for a member of each list; want of it is the only error.
pub fn marked_by<M: Marks>(
    alloc: Global,
    marks: &mut M,
    words: usize,
    lists: Vec<Vec<u64>>,
) -> Result<Vec<u64>, AllocError>
    requires some { 0 < words }
    requires within { All (λ l. AreWithin words l.items) lists.items }
    requires ready { M.ready marks.old }
    ensures ready { M.ready marks.new }
    ensures long { IfOk result (λ bits. vec_len bits ≡ words) }
    ensures union { IfOk result (λ bits. AreUnion bits.items (places_in lists.items)) }
{
    let mut bits = vec![in alloc; 0u64; words]?;
    let (table, mut lead) = BoardTable::of_words(alloc, bits.as_slice(), &())?;
    let mut crew = seat_crew(alloc, &table.shared, &mut lead, lists)?;
    marks.mark(&table.shared, crew.as_mut_slice());
    gather(&table.shared, &mut lead, crew);
    copy_out(table, lead, bits.as_mut_slice());
    Ok(bits)
}
