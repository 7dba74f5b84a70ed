// The laws of cases.
ghost use Rattle.comparison.specs.Laws.{CasesAreReadBack, HolderCallsAreReadBack, DocketCallsAreReadBack};

// What is written is read back. The function does nothing: its contract says that the laws hold.
// - The cases in a file are those that stand in it one after another, up to the end of the file or one that is cut off.
// - The calls on a holder that bytes say are those that stand there one after another, up to the end, one that is cut off,
//   or a byte that is no call.
// - The same for the calls on a docket.
pub fn cases_keep_their_laws()
    ensures cases { CasesAreReadBack }
    ensures holder_calls { HolderCallsAreReadBack }
    ensures docket_calls { DocketCallsAreReadBack }
{}
