// The laws of orders.
ghost use Rattle.order.specs.Laws.{RankErrorsAddUp, RankErrorIsShortestStretch, TrueOrdersArePlacedWhole, EarliestInstantsAreLeast, StrictIsBoundZero, OneMoreStep, OnlyAddsAreLate, PlacedOrdersStaySmall};
ghost use Rattle.order.specs.ByPlace.{PlacedStepByStep, InstantsByPlace, AdmitsExactlyInTimeOrder, PlacedInTimeOrder};

// What an order costs and which orders are true. The function does nothing: its contract says that the laws hold.
// - The rank errors of a placed order add up to its passings-over.
// - A rank error is the length of the shortest stretch whose removal makes the strict object give the step's answer.
// - The true orders are the placed orders that have a step for each operation.
// - The earliest instants are admissible wherever any are, and no other admissible list has a smaller one anywhere.
// - The strict object itself is the case of bound 0.
// - One more step changes the giving list, the rank errors, the latenesses and the count of adds by what it finds.
// - Only the item of an add can be late: the lateness of any other operation is 0.
// - The numbers of a placed order are bounded by the number of operations and the bound.
pub fn orders_keep_their_laws()
    ensures sums { RankErrorsAddUp }
    ensures stretches { RankErrorIsShortestStretch }
    ensures whole { TrueOrdersArePlacedWhole }
    ensures earliest { EarliestInstantsAreLeast }
    ensures strict { StrictIsBoundZero }
    ensures growing { OneMoreStep }
    ensures adds_alone { OnlyAddsAreLate }
    ensures small { PlacedOrdersStaySmall }
{}

// The definitions that go through an order from the front, said of its steps and places instead.
// - An order is placed exactly when each step was acceptable after the steps before it.
// - Instants are admissible exactly when there is one for each place, inside the operation's time, and they never fall.
// - An order admits instants exactly when no step ends before it, or an earlier step, starts.
// - A placed order never sets a step before one that precedes it in time.
pub fn orders_by_place()
    ensures placed { PlacedStepByStep }
    ensures instants { InstantsByPlace }
    ensures admits { AdmitsExactlyInTimeOrder }
    ensures kept { PlacedInTimeOrder }
{}
