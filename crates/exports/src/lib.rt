// What callers in Rust and C can link: bytes in memory, examined.
#![tactic(auto)]

ghost use Rattle.std.specs.Prelude.{◌≡◌, ◌≢◌, ◌<◌, ◌≤◌, ◌⊎◌, false, None, length};
ghost use Rattle.std.specs.Option.{option_map, unwrap_or};
ghost use Rattle.calls.specs.Rules.{is_too_short};
ghost use Rattle.docket.specs.Buffers.{buffers_of};
ghost use Rattle.examination.specs.Traces.{examination_of, TrueTraceOfEither, count_of, CertifiedOfEither};
ghost use Rattle.report.specs.Reports.{report_on};
ghost use Rattle.text.specs.Contents.{content, all_said};
ghost use Rattle.comparison.specs.Cases.{docket_case, case_answer};
ghost use Rattle.exports.specs.Plain.{number_of_layer, plain, certificate_in, Written};

use calls::certificate::Certificate;
use comparison::case::answer_case;
use comparison::heap::Heap;
use docket::buffers::Buffers;
use examination::examining::certify_trace;
use refusal::{Layer, Refusal};
use report::report::report_trace;
use std::alloc::Global;
use text::text::Text;

// What came of an examination, as plain numbers.
// Kept (C interface): callers in C read numbers, so an outcome, a layer and a refusal are numbers here.
#[derive(Clone, Copy, Default)]
#[repr(C)]
pub struct PlainOutcome {
    // 0 where a certificate is granted, 1 where the trace or its order is refused, or a buffer is too short
    pub status: u8,
    // the refusal: its layer (1 frame, 2 record, 3 item, 4 sheet, 5 docket, 6 holder), number, place and detail
    pub layer: u8,
    pub number: u8,
    pub place: u16,
    pub detail: u16,
    // the certificate: the sum of the rank errors, the largest, and the first step that has it
    pub total: u32,
    pub largest: u16,
    pub first: u16,
}

// The number of a layer, from the bytes upward.
// Kept (C interface): callers in C have no Layer; a From would have to stand in the crate of Layer, which has no use for these numbers.
fn layer_number(layer: Layer) -> u8
    ensures { result ≡ number_of_layer layer }
{
    match layer {
        Layer::Frame => 1,
        Layer::Record => 2,
        Layer::Item => 3,
        Layer::Sheet => 4,
        Layer::Docket => 5,
        Layer::Holder => 6,
    }
}

// Those numbers that do not apply are 0.
impl From<Result<Certificate, Refusal>> for PlainOutcome {
    ghost from_gives = { λ answer outcome. outcome ≡ plain answer };

    fn from(answer: Result<Certificate, Refusal>) -> PlainOutcome {
        match answer {
            Ok(certificate) => PlainOutcome {
                total: certificate.total,
                largest: certificate.largest,
                first: certificate.first,
                ..PlainOutcome::default()
            },
            Err(refusal) => PlainOutcome {
                status: 1,
                layer: layer_number(refusal.layer),
                number: refusal.number,
                place: refusal.place,
                detail: refusal.detail,
                ..PlainOutcome::default()
            },
        }
    }
}

// The length of a text that is whole, or 0 of one that is not.
// Kept (C interface): a caller in C reads one number, so none is 0 here.
fn length_of(text: &Text) -> usize
    ensures { result ≡ unwrap_or (option_map length (all_said (content text.now))) 0 }
{
    text.whole().map_or(0, |said| said.len())
}

// Examines a trace: the certificate or the refusal as plain numbers, with rank errors, instants and latenesses over the
// front of the buffers. Each buffer needs an entry for each operation, 1,024 at most. The status is 0 only for a true trace,
// and, with such buffers, for every true trace.
#[unsafe(no_mangle)]
pub extern "C" fn examiner_certify(
    bytes: &[u8],
    ranks: &mut [u16],
    instants: &mut [u64],
    latenesses: &mut [u16],
    outcome: &mut PlainOutcome,
)
    ensures outcome { outcome.new ≡ plain (examination_of bytes.now (buffers_of ranks.old instants.old latenesses.old)).answer }
    ensures written { buffers_of ranks.new instants.new latenesses.new ≡ (examination_of bytes.now (buffers_of ranks.old instants.old latenesses.old)).buffers }
    ensures granted_exactly_when_true_order { (outcome.new.status ≡ 0 → TrueTraceOfEither bytes.now) × ((h : TrueTraceOfEither bytes.now) → is_too_short (count_of h) (buffers_of ranks.old instants.old latenesses.old) ≡ false → outcome.new.status ≡ 0) }
    ensures granted_certificates_are_true { outcome.new.status ≡ 0 → CertifiedOfEither bytes.now (buffers_of ranks.old instants.old latenesses.old) (certificate_in outcome.new) (buffers_of ranks.new instants.new latenesses.new) }
{
    let mut buffers = Buffers {
        ranks,
        instants,
        latenesses,
    };
    *outcome = PlainOutcome::from(certify_trace(bytes, &mut buffers));
}

// Writes the text that is printed of a trace over the front of the memory, as far as it fits, and answers how long it is;
// 0 where it does not fit, as it always does in 150,639 bytes.
#[unsafe(no_mangle)]
pub extern "C" fn examiner_report(bytes: &[u8], memory: &mut [u8]) -> usize
    ensures written { Written (report_on bytes.now).text memory.old result memory.new }
    ensures longest { 150639 ≤ length memory.old → result ≡ length (report_on bytes.now).text }
    ensures none_where_too_long { result ≡ 0 → length memory.old < length (report_on bytes.now).text }
{
    let mut text = Text::new(memory);
    report_trace(bytes, &mut text);
    length_of(&text)
}

// Writes the answer to a case over the front of the memory, as far as it fits, and answers how long it is; 0 where it does
// not fit, and, for the calls on a docket alone, where there was not enough memory for them.
#[unsafe(no_mangle)]
pub extern "C" fn examiner_answer(heap: Global, letter: u8, body: &[u8], memory: &mut [u8]) -> usize
    ensures written_but_for_dockets { letter ≢ 68 → Written (case_answer letter body.now) memory.old result memory.new }
    ensures written_where_no_case { docket_case body.now ≡ None → Written (case_answer letter body.now) memory.old result memory.new }
    ensures none_where_too_long { letter ≢ 68 → result ≡ 0 → length memory.old < length (case_answer letter body.now) }
    ensures written_or_wanting { Written (case_answer letter body.now) memory.old result memory.new ⊎ ((result ≡ 0) × (memory.new ≡ memory.old)) }
{
    let mut heap = Heap::new(heap);
    let mut text = Text::new(memory);
    match answer_case(&mut heap, letter, body, &mut text) {
        Ok(()) => length_of(&text),
        Err(_) => 0,
    }
}
