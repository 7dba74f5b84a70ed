// What every refusal says, whichever layer it comes from.
#![tactic(auto)]

ghost use Rattle.std.specs.Prelude.{◌≡◌};
ghost use Rattle.refusal.specs.Wording.{layer_name};

// The layer that refuses: the frame of a trace, a record in it, an item's number, the sheet, the docket, a strict object.
#[derive(Clone, Copy, PartialEq, Eq, Debug)]
pub enum Layer {
    Frame,
    Record,
    Item,
    Sheet,
    Docket,
    Holder,
}

// A refusal in plain numbers. The place is the number of a record or a step, and 0 where the layer has none;
// the detail is what the list of refusals names for that number, and else 0.
// Kept (no plainer): number, place and detail, 0 for none, are what is printed and listed; in code each layer has a fault enum.
#[derive(Clone, Copy, PartialEq, Eq, Debug)]
pub struct Refusal {
    pub layer: Layer,
    pub number: u8,
    pub place: u16,
    pub detail: u16,
}

impl Layer {
    // The word by which the layer is printed.
    pub fn name(&self) -> &'static str
        ensures { result.now ≡ layer_name self.now }
    {
        match self {
            Layer::Frame => "frame",
            Layer::Record => "record",
            Layer::Item => "item",
            Layer::Sheet => "sheet",
            Layer::Docket => "docket",
            Layer::Holder => "holder",
        }
    }
}
