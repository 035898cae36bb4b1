//! The executor of a warehouse.

use crate::ahead::read_ahead;
use crate::begin::begin_place;
use crate::delivery::deliver;
use crate::parts::{find_payer, order_part, payment_part};
use crate::payment::pay;
use crate::purchase::buy;
use crate::reading::{answer_level, answer_status};
use crate::refused::with_refusal;
use arrayvec::ArrayVec;
use hy_commands::{Command, Delivery, Edition, OrderStatus, Reply, StockLevel};
use hy_layout::{Layout, has_items};
use hy_schema::Refusal;
use hy_space::Space;
use hy_undo::Undo;
use hy_writers::hy_index::Entry;
use hy_writers::hy_store::LineKey;
use std::alloc::Global;
use std::marker::Model;

/// Does the slices of commands on the pages of a warehouse. It notes of the command that runs where its customer stands
/// and which orders were delivered, and keeps two lists that are used again.
#[derive(Drop)]
pub struct Executor {
    layout: Layout,
    place: u64,
    delivered: ArrayVec<u32, 10>,
    entries: Vec<Entry<LineKey>>,
    low: Vec<u32>,
    // what was read ahead; nobody asks for it, and keeping it keeps the reads
    ahead: u64,
}

impl Model for Executor {
    ghost use Rattle.hy_tpcc.specs.Executor.{ExecutorState};

    ghost Value = { ExecutorState };

    ghost view = { λ executor. record {
      layout = executor.layout;
      place = executor.place;
      delivered = executor.delivered.items;
    } };
}

impl Executor {
    ghost use Rattle.std.specs.Prelude.{◌≡◌, ◌<◌, ◌↔◌, ◌⊎◌, IfErr, IfOk, IsErrOf, None, OnOk, Some, false};
    ghost use Rattle.hy_undo.specs.Writes.{IsOutOfFrames};
    ghost use Rattle.hy_space.specs.Space.{owner_bytes};
    ghost use Rattle.hy_frames.specs.FrameTable.{free_of};
    ghost use Rattle.hy_commands.specs.Growth.{HasGrownBy};
    ghost use Rattle.hy_commands.specs.Commands.{customer_home_of, slice_count};
    ghost use Rattle.hy_commands.specs.Transactions.{begin_refusal_of, has_items};
    ghost use Rattle.hy_slices.specs.Slices.{has_item_at};
    ghost use Rattle.hy_writers.specs.of_store.Stored.{HasStore};
    ghost use Rattle.hy_writers.specs.of_store.Writes.{IsWritableStore, LeavesStore, WritesStore, stored_in};
    ghost use Rattle.hy_writers.specs.Waiting.{IsSoundStore};
    ghost use Rattle.hy_commands.specs.declared.edition.Edition.{Edition};
    ghost use Rattle.hy_tpcc.specs.Deliveries.{AnswersDelivery, DeliversNext, RunsDelivery};
    ghost use Rattle.hy_tpcc.specs.Executor.{AnswersSlice, IsAnswer, IsPartlyDone, IsUnderWay, RunsCommand, RunsSlice, StaysInBounds};
    ghost use Rattle.hy_tpcc.specs.Parts.{DoesPart, FindsPayer, HasPart, reply_of_part};
    ghost use Rattle.hy_tpcc.specs.Shortages.{FindsNoFrame};

    /// An executor for the warehouse of a layout. Takes no memory.
    pub fn new(alloc: Global, layout: Layout) -> Executor
        ensures { result.layout ≡ layout }
    {
        Executor {
            layout,
            place: 0,
            delivered: ArrayVec::new(),
            entries: Vec::new(alloc),
            low: Vec::new(alloc),
            ahead: 0,
        }
    }

    /// The layout of the warehouse.
    pub fn layout(&self) -> &Layout
        ensures { result.now ≡ self.now.layout }
    {
        &self.layout
    }

    /// Begins a command, of which no slice is done: notes where its customer stands. Refused by the first of these that
    /// holds: E8 where a value is out of range, E4 where it names another warehouse, E5 a district that isn't there, E6 a
    /// customer who isn't there. Takes no memory.
    pub fn begin<const N: usize>(
        &mut self,
        space: &Space<N>,
        command: &Command,
    ) -> Result<(), Refusal>
        requires store { HasStore N (owner_bytes space.now) }
        requires sound { IsSoundStore self.old.layout (stored_in N space.now) }
        ensures begun { OnOk result (begin_refusal_of self.old.layout.warehouse command.now
            (stored_in N space.now).tables ≡ None) }
        ensures under_way { OnOk result ((edition : Edition)
            → StaysInBounds self.old.layout edition command.now (stored_in N space.now).tables
            → IsUnderWay self.new edition command.now 0 (stored_in N space.now).tables (stored_in N space.now)) }
        ensures refused { IfErr result (λ refusal. begin_refusal_of self.old.layout.warehouse command.now
            (stored_in N space.now).tables ≡ Some refusal) }
        ensures layout { self.new.layout ≡ self.old.layout }
    {
        let place = begin_place(&self.layout, space, command)?;
        self.ahead = read_ahead(&self.layout, space, command, place);
        self.place = place;
        self.delivered.clear();
        Ok(())
    }

    /// Does the next slice of a command that this executor began, in an edition, behind so many: the head of a purchase and then each
    /// of its lines; the home and then the customer of a payment; the districts of a delivery, one after the other; a
    /// command that only reads in one. The last one answers the reply. Refused E7 exactly where it is that of a line
    /// whose item isn't there, before it writes anything; E2 where it lacks a frame, which one that only reads never
    /// does; E1. Behind E2 and E1 only what the undo log gives back is known.
    pub fn slice<const N: usize>(
        &mut self,
        space: &mut Space<N>,
        undo: &mut Undo<N>,
        edition: Edition,
        command: &Command,
        done: u64,
    ) -> Result<Option<Reply>, Refusal>
        requires writable { IsWritableStore N space.old undo.old }
        requires next { done < slice_count command.now }
        requires under_way { RunsCommand self.old edition command.now done (stored_in N space.old) }
        ensures under_way { OnOk result
            (LeavesStore N space.old space.new (RunsSlice self.old self.new edition command.now done)) }
        ensures reply { IfOk result (AnswersSlice self.old edition command.now done (stored_in N space.old)) }
        ensures no_item { IsErrOf result Refusal.NoSuchItem
            ↔ (has_item_at self.old.layout.load.items command.now done ≡ false) }
        ensures still { IsErrOf result Refusal.NoSuchItem → (space.new ≡ space.old) × (undo.new ≡ undo.old) }
        ensures refused { IfErr result (λ refusal. (refusal ≡ Refusal.NoSuchItem)
            ⊎ (refusal ≡ Refusal.NoFrame) ⊎ (refusal ≡ Refusal.NoMemory)) }
        ensures writes { WritesStore N space.old space.new undo.old undo.new }
        ensures no_frame { IsErrOf result Refusal.NoFrame → FindsNoFrame command.now done space.new }
        ensures layout { self.new.layout ≡ self.old.layout }
    {
        match command {
            Command::NewOrder(order) => buy(&self.layout, space, undo, order, self.place, done),
            Command::Payment(payment) => {
                pay(
                    &self.layout,
                    space,
                    undo,
                    edition,
                    payment,
                    self.place,
                    done,
                )
            }
            Command::OrderStatus(status) => self.read_status(space, status),
            Command::Delivery(delivery) => self.deliver(space, undo, delivery, done),
            Command::StockLevel(level) => self.read_level(space, level),
        }
    }

    /// Whether the items that a command names are there. Takes no memory.
    pub fn has_items(&self, command: &Command) -> bool
        ensures { result ≡ has_items self.now.layout.load.items command.now }
    {
        has_items(self.layout.load(), command)
    }

    /// The number of the customer who pays, who is one of this warehouse, and 0 where nobody does; none where the
    /// customer whom the command names isn't there. Takes no memory.
    pub fn find_customer<const N: usize>(&self, space: &Space<N>, command: &Command) -> Option<u64>
        requires store { HasStore N (owner_bytes space.now) }
        requires sound { IsSoundStore self.now.layout (stored_in N space.now) }
        requires here { customer_home_of command.now ≡ self.now.layout.warehouse }
        ensures { FindsPayer command.now (stored_in N space.now).tables result }
    {
        find_payer(&self.layout, space, command)
    }

    /// Does the part of a command over several warehouses here, which the database doesn't refuse: at the home of a
    /// purchase all but the stock of the lines that others supply, and elsewhere the stock of those that are supplied
    /// from here; at the home of a payment the amount and the history, and elsewhere the customer's change. The
    /// warehouse whose customer is named answers the reply. Refused E2 where it lacks a frame, and E1; behind these
    /// only what the undo log gives back is known.
    pub fn run_part<const N: usize>(
        &self,
        space: &mut Space<N>,
        undo: &mut Undo<N>,
        edition: Edition,
        command: &Command,
    ) -> Result<Option<Reply>, Refusal>
        requires writable { IsWritableStore N space.old undo.old }
        requires sound { IsSoundStore self.now.layout (stored_in N space.old) }
        requires part { HasPart self.now.layout command.now }
        requires small { HasGrownBy 100_000_000 (stored_in N space.old).tables }
        ensures done { OnOk result (LeavesStore N space.old space.new (DoesPart self.now.layout edition command.now)) }
        ensures reply { IfOk result (λ reply. reply
            ≡ reply_of_part self.now.layout edition command.now (stored_in N space.old).tables) }
        ensures refused { IfErr result (λ refusal. (refusal ≡ Refusal.NoFrame) ⊎ (refusal ≡ Refusal.NoMemory)) }
        ensures writes { WritesStore N space.old space.new undo.old undo.new }
        ensures no_frame { IsErrOf result Refusal.NoFrame → free_of space.new.frames ≡ 0 }
    {
        match command {
            Command::NewOrder(order) => order_part(&self.layout, space, undo, order),
            Command::Payment(payment) => payment_part(&self.layout, space, undo, edition, payment),
            Command::OrderStatus(_) | Command::Delivery(_) | Command::StockLevel(_) => {
                unreachable!()
            }
        }
    }

    /// The one slice of Order-Status.
    fn read_status<const N: usize>(
        &mut self,
        space: &Space<N>,
        status: &OrderStatus,
    ) -> Result<Option<Reply>, Refusal>
        requires store { HasStore N (owner_bytes space.now) }
        requires done { IsPartlyDone self.old.layout (Command.OrderStatus status.now) self.old.place 0
            (stored_in N space.now) }
        ensures same { self.new ≡ self.old }
        ensures reply { IfOk result
            (IsAnswer self.old.layout (Command.OrderStatus status.now) self.old.place 0 (stored_in N space.now)) }
        ensures refused { IfErr result (λ refusal. refusal ≡ Refusal.NoMemory) }
    {
        let alloc = *self.entries.allocator();
        match answer_status(
            alloc,
            &self.layout,
            space,
            status,
            self.place,
            &mut self.entries,
        ) {
            Ok(reply) => Ok(Some(reply)),
            Err(_) => Err(Refusal::NoMemory),
        }
    }

    /// The one slice of Stock-Level.
    fn read_level<const N: usize>(
        &mut self,
        space: &Space<N>,
        level: &StockLevel,
    ) -> Result<Option<Reply>, Refusal>
        requires store { HasStore N (owner_bytes space.now) }
        requires done { IsPartlyDone self.old.layout (Command.StockLevel level.now) self.old.place 0
            (stored_in N space.now) }
        ensures same { self.new ≡ self.old }
        ensures reply { IfOk result
            (IsAnswer self.old.layout (Command.StockLevel level.now) self.old.place 0 (stored_in N space.now)) }
        ensures refused { IfErr result (λ refusal. refusal ≡ Refusal.NoMemory) }
    {
        let entries = &mut self.entries;
        match answer_level(
            &self.layout,
            space,
            level,
            self.place,
            entries,
            &mut self.low,
        ) {
            Ok(reply) => Ok(Some(reply)),
            Err(_) => Err(Refusal::NoMemory),
        }
    }

    /// The next slice of a delivery.
    fn deliver<const N: usize>(
        &mut self,
        space: &mut Space<N>,
        undo: &mut Undo<N>,
        delivery: &Delivery,
        done: u64,
    ) -> Result<Option<Reply>, Refusal>
        requires writable { IsWritableStore N space.old undo.old }
        requires next { done < 10 }
        requires under_way { RunsDelivery self.old delivery.now done (stored_in N space.old) }
        ensures under_way { OnOk result (LeavesStore N space.old space.new
            (DeliversNext self.old self.new delivery.now done)) }
        ensures reply { IfOk result (AnswersDelivery self.old delivery.now done (stored_in N space.old)) }
        ensures refused { IfErr result (λ refusal. (refusal ≡ Refusal.NoFrame) ⊎ (refusal ≡ Refusal.NoMemory)) }
        ensures writes { WritesStore N space.old space.new undo.old undo.new }
        ensures no_frame { IsErrOf result Refusal.NoFrame → IsOutOfFrames space.new }
        ensures layout { self.new.layout ≡ self.old.layout }
    {
        let entries = &mut self.entries;
        let delivered = &mut self.delivered;
        with_refusal(deliver(
            &self.layout,
            space,
            undo,
            delivery,
            self.place,
            done,
            entries,
            delivered,
        ))
    }
}
