// What a lane stores of one join.
use crate::calls::Call;
use crate::lives::{keeper_of, live};
use fluid_lane::Limits;
use fluid_log::{Keeper, MemoryKeeper};
use std::alloc::Global;
use std::process::Abort;

const TEXT: &str =
    r#"{"acks":[],"base":{"attributes":{"minimumSequenceNumber":0,"sequenceNumber":0},"quorumMembers":[],"quorumProposals":[],"quorumValues":[]},"behind":[{"clientId":null,"clientSequenceNumber":-1,"contents":null,"data":"{\"clientId\":\"c0\",\"detail\":null}","minimumSequenceNumber":0,"referenceSequenceNumber":-1,"sequenceNumber":1,"timestamp":5,"type":"join"}],"clients":[{"id":"c0","last":0,"nacked":false,"reference":0,"scopes":["doc:write"]}],"counted":1,"entered":1,"heard":[{"id":"c0","moment":5}],"minima":[],"minimum":0,"pending":[],"sequence":1,"version":2}"#;

fn assert_checkpoint(rt: &impl Abort, alloc: Global, keeper: MemoryKeeper, wanted: &str) {
    let mut keeper = keeper;
    assert!(rt; 0 < keeper.checkpoints());
    let text = keeper.checkpoint(alloc, 0).expect(rt, "a checkpoint");
    assert!(rt; text.as_slice() == wanted.as_bytes(), "{wanted}");
    drop(text);
    drop(keeper);
}

#[test]
fn a_join_is_stored_so(rt: HostRuntime) {
    let alloc = rt.alloc();
    let keeper = keeper_of(&rt, alloc, &[], &[]);
    let calls = [Call::Start, Call::Writer, Call::Checkpoint];
    let (told, keeper) = live(&rt, alloc, Limits::FULL, keeper, &calls);
    assert_eq!(&rt; told.as_str(), "begun; c0 1/0; stored 0");
    assert_checkpoint(&rt, alloc, keeper, TEXT);
}
