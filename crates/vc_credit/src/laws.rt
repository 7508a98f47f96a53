//! The law of credit. A law is a function that does nothing, whose contract is the law.
ghost use Rattle.vc_credit.specs.Laws.{CreditIsKept};

/// Whatever the two ends of a way do, every token finds a place in the buffer, and no FCT raises the credit past 16.
pub fn credit_is_kept()
    ensures { CreditIsKept }
{}
