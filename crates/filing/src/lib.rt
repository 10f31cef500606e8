// A book's sheets and files: the sheet call and the file call.
#![tactic(auto)]

pub mod file;
mod laying;
pub mod sheet;

ghost use Rattle.filing.specs.NeverThree.{NeverThree};

// No settling, sheet call or file call is refused with 3. It does nothing: what it ensures has to be proved.
pub fn no_call_sends_back_three()
    ensures { NeverThree }
{}
