// The law over every list of calls.
ghost use Rattle.calls.specs.Laws.{CallsKeepTheLaw};

// What holds of the answers of a docket and of the steps that it leaves. The function does nothing: its contract says
// that the law holds for every seat rule, all operations, every bound and every list of calls.
pub fn calls_keep_the_law()
    ensures { CallsKeepTheLaw }
{}
