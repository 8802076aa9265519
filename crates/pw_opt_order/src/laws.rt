//! What holds of the order of what is known, and of what is read of it.

ghost use Rattle.pw_opt_rules.specs.Constants.{constant_transfer, constants};
ghost use Rattle.pw_opt_rules.specs.Copies.{copy_transfer, copies};
ghost use Rattle.pw_opt_order.specs.Rises.{Rises};
ghost use Rattle.pw_opt_order.specs.Reads.{ReadsOperands};

/// More that is known before an operation is more that is known behind it: of words, and of copies.
pub fn transfers_rise()
    ensures constants { Rises constant_transfer }
    ensures copies { Rises copy_transfer }
{}

/// Operations and ends are rewritten by what is known of their operands alone.
pub fn rewritings_read_operands()
    ensures constants { ReadsOperands constants }
    ensures copies { ReadsOperands copies }
{}
