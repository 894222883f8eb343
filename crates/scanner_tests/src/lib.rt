// Tests of the scanner at the edges of its rules.
#![tactic(auto)]

#[cfg(test)]
mod tests {
    use tiny::scanner::{Scanner, count_tokens};
    use tiny::tokens::{Kind, Lexeme};

    // How many tokens there are, or the number and the place of the refusal.
    fn answer(source: &[u8]) -> Result<usize, (u8, usize)> {
        count_tokens(source).map_err(|fault| (fault.what.number(), fault.place))
    }

    // Whether the first token is of this kind, with this end and value.
    fn begins(source: &[u8], kind: Kind, end: usize, value: i32) -> bool {
        let first = Scanner::new(source).next();
        matches!(first, Ok(Some(token)) if token.what == Lexeme { kind, end, value })
    }

    #[test]
    fn lengths(rt: HostRuntime) {
        assert_eq!(rt; answer(b""), Ok(0));
        assert_eq!(rt; answer(&[b' '; 16384]), Ok(0));
        assert_eq!(rt; answer(&[b' '; 16385]), Err((2, 16384)));
        assert_eq!(rt; answer(&[b'!'; 16384]), Err((3, 0)));
        assert_eq!(rt; answer(&[b'!'; 16385]), Err((2, 16384)));
    }

    #[test]
    fn many_tokens(rt: HostRuntime) {
        assert_eq!(rt; answer(&[b';'; 2048]), Ok(2048));
        assert_eq!(rt; answer(&[b';'; 2049]), Err((5, 2048)));
        let mut bytes = [b';'; 2060];
        bytes[2048..].fill(b'9');
        assert_eq!(rt;
            answer(&bytes),
            Err((5, 2048)),
            "want of room before a literal outside int"
        );
        bytes[2048] = b'!';
        assert_eq!(rt; answer(&bytes), Err((3, 2048)), "no token begins there");
    }

    #[test]
    fn literals(rt: HostRuntime) {
        assert!(rt; begins(b"-2147483648", Kind::Literal, 11, -2147483648));
        assert_eq!(rt; answer(b"{-2147483649}"), Err((4, 1)));
        assert_eq!(rt; answer(b"{ +2147483648}"), Err((4, 2)));
        assert!(rt; begins(b"+0", Kind::Literal, 2, 0));
        assert!(rt; begins(b"007", Kind::Literal, 1, 0));
        assert_eq!(rt; answer(b"007"), Ok(3));
        assert_eq!(rt; answer(b"x-1"), Ok(2));
        assert_eq!(rt; answer(b"x - 1"), Ok(3));
    }

    #[test]
    fn symbols(rt: HostRuntime) {
        assert!(rt; begins(b"<=", Kind::LessEqual, 2, 0));
        assert!(rt; begins(b"< =", Kind::Less, 1, 0));
        assert!(rt; begins(b"&&", Kind::DoubleAmpersand, 2, 0));
        assert!(rt; begins(b"& &", Kind::Ampersand, 1, 0));
        assert_eq!(rt; answer(b"a##"), Ok(1));
        assert_eq!(rt; answer(b"a ## b \r c \n d"), Ok(2));
        assert_eq!(rt; answer(b"a # b"), Err((3, 2)));
        assert_eq!(rt; answer(b"a\xc3\xb1"), Err((3, 1)));
        assert_eq!(rt; answer(b"\"a\""), Err((3, 0)));
    }

    #[test]
    fn words(rt: HostRuntime) {
        assert!(rt; begins(b"wHiLe", Kind::WhileWord, 5, 0));
        assert!(rt; begins(b"DELETE", Kind::DeleteWord, 6, 0));
        assert!(rt; begins(b"While_", Kind::Name, 6, 0));
        assert!(rt; begins(b"\x08\r\t\n _9", Kind::Name, 7, 0));
    }
}
