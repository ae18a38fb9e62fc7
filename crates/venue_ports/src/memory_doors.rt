//! Doors in memory.

ghost use Rattle.std.specs.Prelude.{◌≡◌, ℕ, ◌≤◌, ◌↔◌, List, [], Some, IfOk, IsOk, IsErr, OnOk, OnErr, Bool, length, true, false};
ghost use Rattle.std.specs.Option.{option_map};
ghost use Rattle.venue_ports.specs.Causes.{one_more, HasExactCause};
ghost use Rattle.venue_ports.specs.Plans.{FailsNext, called, fresh};

use crate::doors::Doors;
use crate::memory::OutOfMemory;
use crate::memory_stream::MemoryStream;
use crate::plan::CallPlan;
use crate::stream::Failed;
use std::alloc::Global;
use std::collections::VecDeque;

/// Doors over a list of streams, of which some calls are to fail.
#[derive(Drop)]
pub struct MemoryDoors {
    alloc: Global,
    streams: VecDeque<MemoryStream>,
    binds: CallPlan,
    accepts: CallPlan,
    ready: bool,
    accepted: u64,
    bound: [u8; 256],
    bound_len: usize,
    faults: u64,
}

impl MemoryDoors {
    ghost use Rattle.venue_ports.specs.Doors.{doors_ready, doors_accepted, doors_binds, doors_bound, doors_streams, doors_bind_plan, doors_accept_plan, doors_faults};

    /// Doors that are not ready, with the connections that are to come, the next one first. Binds and accepts are numbered
    /// from 1, apart.
    pub fn new(
        alloc: Global,
        streams: Vec<MemoryStream>,
        failing_binds: Vec<u64>,
        failing_accepts: Vec<u64>,
    ) -> Result<MemoryDoors, OutOfMemory>
        ensures succeeds { IsOk result }
        ensures ready { IfOk result (λ d. doors_ready d ≡ false) }
        ensures accepted { IfOk result (λ d. doors_accepted d ≡ 0) }
        ensures binds { IfOk result (λ d. doors_binds d ≡ Some 0) }
        ensures bound { IfOk result (λ d. doors_bound d ≡ Some []) }
        ensures streams { IfOk result (λ d. doors_streams d ≡ streams.items) }
        ensures bind_plan { IfOk result (λ d. doors_bind_plan d ≡ fresh failing_binds.items) }
        ensures accept_plan { IfOk result (λ d. doors_accept_plan d ≡ fresh failing_accepts.items) }
        ensures faults { IfOk result (λ d. doors_faults d ≡ 0) }
    {
        Ok(MemoryDoors {
            alloc,
            streams: VecDeque::from(streams),
            binds: CallPlan::new(failing_binds),
            accepts: CallPlan::new(failing_accepts),
            ready: false,
            accepted: 0,
            bound: [0; 256],
            bound_len: 0,
            faults: 0,
        })
    }

    // Counts a failure.
    fn failed(&mut self) -> Failed
        ensures counted { self.new ≡ record self.old { faults = one_more self.old.faults } }
        ensures later { self.old.faults ≤ self.new.faults }
    {
        self.faults = self.faults.saturating_add(1);
        Failed
    }
}

impl Doors for MemoryDoors {
    type Conn = MemoryStream;

    ghost use Rattle.venue_ports.specs.Doors.{doors_ready, doors_accepted, doors_binds, doors_bound, doors_streams, doors_bind_plan, doors_accept_plan, doors_faults};
    ghost use Rattle.venue_ports.specs.Quiet.{HandsOut};

    ghost ready = { doors_ready };

    ghost accepted = { doors_accepted };

    ghost binds = { doors_binds };

    ghost bound = { doors_bound };

    ghost faults = { doors_faults };

    fn fault_count(&self) -> u64 {
        self.faults
    }

    fn bind(&mut self, address: &str) -> Result<(), Failed>
        requires not_ready { doors_ready self.old ≡ false }
        requires short { length address.now ≤ 256 }
        ensures ok { OnOk result (doors_ready self.new ≡ true) }
        ensures err { OnErr result (doors_ready self.new ≡ false) }
        ensures accepted { doors_accepted self.new ≡ doors_accepted self.old }
        ensures binds { doors_binds self.new ≡ option_map one_more (doors_binds self.old) }
        ensures bound { doors_bound self.new ≡ option_map (λ _. address.now) (doors_bound self.old) }
        ensures cause { HasExactCause (doors_faults self.old) (doors_faults self.new) result }

        ensures fails { IsErr result ↔ FailsNext (doors_bind_plan self.old) }
        ensures counted { OnErr result (doors_faults self.new ≡ one_more (doors_faults self.old)) }
        ensures called { doors_bind_plan self.new ≡ called (doors_bind_plan self.old) }
        ensures other_plan { doors_accept_plan self.new ≡ doors_accept_plan self.old }
        ensures streams { doors_streams self.new ≡ doors_streams self.old }
    {
        let bytes = address.as_bytes();
        self.bound[..bytes.len()].copy_from_slice(bytes);
        self.bound_len = bytes.len();
        if self.binds.fails() {
            return Err(self.failed());
        }
        self.ready = true;
        Ok(())
    }

    fn accept(&mut self) -> Result<MemoryStream, Failed>
        requires { doors_ready self.old ≡ true }
        ensures ok { OnOk result (doors_accepted self.new ≡ one_more (doors_accepted self.old)) }
        ensures err { OnErr result (doors_accepted self.new ≡ doors_accepted self.old) }
        ensures ready { doors_ready self.new ≡ true }
        ensures binds { doors_binds self.new ≡ doors_binds self.old }
        ensures bound { doors_bound self.new ≡ doors_bound self.old }
        ensures cause { HasExactCause (doors_faults self.old) (doors_faults self.new) result }

        ensures fails { IsErr result ↔ FailsNext (doors_accept_plan self.old) }
        ensures counted { OnErr result (doors_faults self.new ≡ one_more (doors_faults self.old)) }
        ensures called { doors_accept_plan self.new ≡ called (doors_accept_plan self.old) }
        ensures other_plan { doors_bind_plan self.new ≡ doors_bind_plan self.old }
        ensures gives { IfOk result (λ s. HandsOut (doors_streams self.old) (doors_streams self.new) s) }
        ensures kept { OnErr result (doors_streams self.new ≡ doors_streams self.old) }
    {
        if self.accepts.fails() {
            return Err(self.failed());
        }
        self.accepted = self.accepted.saturating_add(1);
        match self.streams.pop_front() {
            Some(stream) => Ok(stream),
            None => Ok(MemoryStream::empty(self.alloc)),
        }
    }
}
