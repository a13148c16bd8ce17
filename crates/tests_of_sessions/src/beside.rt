// A reader beside a writer.
ghost use Rattle.std.specs.Prelude.{◌≡◌};

use crate::rows::{READ, WHOLE, WRITE};
use crate::sitting::{MOMENT, lines, says, serve, sit, told_report};
use fluid_hosting::{Report, session};
use fluid_io::FixedClock;
use fluid_lane::Limits;
use fluid_lines::{MemoryWire, Recv, Wire, WireFault};
use fluid_log::MemoryShelves;
use fluid_service::Service;
use fluid_store::MemoryObjects;
use std::alloc::Global;
use std::marker::Model;
use std::sync::Wait;
use std::test::Fail;

// The wire of a reader. Before its second text comes, a writer's whole session goes by on another one. It counts how often it is told to
// follow `d`.
#[derive(Drop)]
struct Beside<'a> {
    wire: MemoryWire,
    service: &'a Service<MemoryShelves>,
    other: MemoryWire,
    calls: u64,
    follows: u64,
    report: Option<Report>,
}

impl<'a> Model for Beside<'a> {
    ghost use Rattle.fluid_lines.specs.Memory.{MemoryWiring};

    ghost Value = { MemoryWiring };

    ghost view = { λ w. w.wire };
}

impl<'a> Wire for Beside<'a> {
    ghost use Rattle.fluid_lines.specs.Memory.{memory_seen};

    ghost seen = { memory_seen };

    fn recv<R: Wait>(&mut self, rt: &R, alloc: Global) -> Result<Recv, WireFault> {
        self.calls = self.calls.saturating_add(1);
        if self.calls == 2 {
            let mut objects = MemoryObjects::new(alloc, Vec::new(alloc));
            let clock = FixedClock::new(MOMENT);
            let key = self.service.key();
            let (report, key, visit) = session(
                rt,
                alloc,
                self.service,
                &mut objects,
                &mut self.other,
                &clock,
                key,
                None,
            );
            self.report = Some(report);
            drop(visit);
            drop(key);
            drop(objects);
        }
        self.wire.recv(rt, alloc)
    }

    fn send<R: Wait>(&mut self, rt: &R, alloc: Global, text: &str) -> Result<(), WireFault> {
        self.wire.send(rt, alloc, text)
    }

    fn follow<R: Wait>(&mut self, _rt: &R, name: &str) {
        if name == "d" {
            self.follows = self.follows.saturating_add(1);
        }
    }
}

const SEEN: &str =
    r#"["connect_document_success",{"checkpointSequenceNumber":0,"clientId":null,"maxMessageSize":1048576,"mode":"read","version":"1"}]
["nack","d",[{"content":{"code":403,"message":"read only connection","type":"InvalidScopeError"},"operation":null,"sequenceNumber":-1}]]
["op","d",[{"clientId":null,"clientSequenceNumber":-1,"contents":null,"data":"{\"clientId\":\"c0\",\"detail\":null}","minimumSequenceNumber":0,"referenceSequenceNumber":-1,"sequenceNumber":1,"timestamp":7,"type":"join"},{"clientId":"c0","clientSequenceNumber":1,"contents":"a","minimumSequenceNumber":1,"referenceSequenceNumber":1,"sequenceNumber":2,"timestamp":7,"type":"op"},{"clientId":"c0","clientSequenceNumber":2,"contents":"b","minimumSequenceNumber":1,"referenceSequenceNumber":1,"sequenceNumber":3,"timestamp":7,"type":"op"},{"clientId":null,"clientSequenceNumber":-1,"contents":null,"data":"\"c0\"","minimumSequenceNumber":4,"referenceSequenceNumber":-1,"sequenceNumber":4,"timestamp":7,"type":"leave"}]]
"#;

#[test]
fn a_reader_gets_what_is_written_beside_it(rt: HostRuntime) -> Result<(), Fail> {
    let alloc = rt.alloc();
    let service = serve(&rt, alloc, Limits::FULL);
    let mut objects = MemoryObjects::new(alloc, Vec::new(alloc));
    let mut wire = Beside {
        wire: lines(&rt, alloc, READ, 0, 0),
        service: &service,
        other: lines(&rt, alloc, WRITE, 0, 0),
        calls: 0,
        follows: 0,
        report: None,
    };
    let visit = sit(
        &rt,
        alloc,
        &service,
        &mut objects,
        &mut wire,
        None,
        "closed 0 0 0 0 1",
    );
    drop(visit);
    says(&rt, alloc, &wire.wire, SEEN);
    says(&rt, alloc, &wire.other, WHOLE);
    assert!(rt; wire.follows == 1, "it follows at its connect alone");
    let report = wire.report.take().expect(&rt, "a report");
    let told = told_report(alloc, &report).expect(&rt, "memory");
    assert!(rt; told.as_str() == "closed 2 1 0 0 0", "{told}");
    drop(told);
    drop(report);
    drop(wire);
    Ok(())
}
