// Calls in a list, each with room for its answer.
use crate::buffers::OwnBuffers;
use calls::certificate::Certificate;
use calls::fault::{DocketFault, RefusalCode};

// A call and what was answered to it; certify also writes its buffers.
// Kept (no plainer): before the call the answer is a value to be written over: `answer_calls` writes every one, and of an Option each reader would take it out.
#[derive(Drop)]
pub enum Slot {
    Place {
        operation: u16,
        answer: Result<u16, DocketFault>,
    },
    Run {
        order: Vec<u16>,
        new: u16,
        stopped: RefusalCode,
    },
    Lift {
        answer: Result<u16, DocketFault>,
    },
    Certify {
        buffers: OwnBuffers,
        answer: Result<Certificate, DocketFault>,
    },
}
