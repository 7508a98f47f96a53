use std::test::Fail;
use vc_credit::{Receiver, Sender};
use vc_tokens::Token;

#[test]
fn two_fcts_are_16_tokens(rt: HostRuntime) -> Result<(), Fail> {
    let mut receiver = Receiver::new(rt.alloc())?;
    let mut sender = Sender::new();
    assert!(rt; !sender.may_send());
    for _ in 0..2 {
        assert!(rt; receiver.may_grant() && sender.may_fct());
        receiver.grant();
        sender.fct();
    }
    assert!(rt; !receiver.may_grant() && sender.credit() == 16);
    for _ in 0..16 {
        assert!(rt; sender.may_send() && receiver.is_promised());
        sender.spend();
        receiver.accept(Token::Byte(7));
    }
    assert!(rt; !sender.may_send());
    for _ in 0..7 {
        assert_eq!(rt; receiver.pop(), Some(Token::Byte(7)));
    }
    assert!(rt; !receiver.may_grant());
    assert_eq!(rt; receiver.front(), Some(Token::Byte(7)));
    assert_eq!(rt; receiver.pop(), Some(Token::Byte(7)));
    assert!(rt; receiver.may_grant() && !receiver.is_empty());
    Ok(())
}
