//! Words of faults.

ghost use Rattle.std.specs.Prelude.{◌≡◌};
ghost use Rattle.cb_top.specs.Outcome.{code_names, name_in, which_word as word_of};

use cb_wp::limits::Which;

/// The name of a code.
pub(crate) fn code_name(code: u8) -> &'static [u8]
    ensures { result.now ≡ name_in code_names code }
{
    if code == 1 {
        b"DoubleName"
    } else if code == 2 {
        b"UnknownName"
    } else if code == 3 {
        b"NoDomain"
    } else if code == 4 {
        b"DoubleDomain"
    } else if code == 5 {
        b"KindClash"
    } else if code == 6 {
        b"TooWide"
    } else if code == 7 {
        b"BadDivisor"
    } else if code == 8 {
        b"SharedWrite"
    } else if code == 9 {
        b"MissingResult"
    } else if code == 10 {
        b"DoubleResult"
    } else if code == 11 {
        b"BigDomain"
    } else if code == 12 {
        b"BigSet"
    } else if code == 13 {
        b"NotLater"
    } else if code == 14 {
        b"BadOperand"
    } else if code == 15 {
        b"NoSender"
    } else if code == 16 {
        b"TwoSenders"
    } else if code == 17 {
        b"NoReceiver"
    } else if code == 18 {
        b"TwoReceivers"
    } else if code == 19 {
        b"SelfChannel"
    } else if code == 20 {
        b"MachineShared"
    } else if code == 21 {
        b"MachineUnowned"
    } else if code == 22 {
        b"ArgCount"
    } else if code == 23 {
        b"TooManySilent"
    } else if code == 24 {
        b"BadStart"
    } else {
        b""
    }
}

/// The word of a limit.
pub(crate) fn which_word(which: Which) -> &'static [u8]
    ensures { result.now ≡ word_of which }
{
    match which {
        Which::Controllers => b"controllers",
        Which::Branches => b"branches",
        Which::Visits => b"visits",
        Which::Obligations => b"obligations",
        Which::Sequent => b"sequent",
        Which::Nodes => b"nodes",
    }
}
