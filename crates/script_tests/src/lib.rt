// What lines of a script are answered, line by line.
#![tactic(auto)]

#[cfg(test)]
mod tests {
    use script::answer_line;
    use std::process::Abort;
    use std::test::Fail;

    const SEVEN: &str = "read 010700020C03000001040205000001160027001329002500";

    const SEVEN_LISTED: &str =
        "read: ok, 11 records\n0 module 7\n3 struct 12\n5 field num\n9 function 2\n11 param num\n15 moveloc 0\n17 pack 0\n19 sender\n20 moveto 0\n22 ret\n23 end\nwritten again: the same bytes\n";

    const LEAST_LISTED: &str =
        "read: ok, 2 records\n0 module 7\n3 end\nwritten again: the same bytes\n";

    // Whether the line, which is the seventh, is answered so.
    fn answered(
        rt: &(impl Abort + AllocGlobal),
        line: &str,
        good: bool,
        text: &str,
    ) -> Result<(), Fail> {
        let mut out = String::new(rt.alloc());
        assert_eq!(rt;
            answer_line(rt.alloc(), 7, line.as_bytes(), &mut out)?,
            good,
            "{}",
            line
        );
        assert_eq!(rt; out.as_str(), text, "{}", line);
        Ok(())
    }

    #[test]
    fn modules(rt: HostRuntime) -> Result<(), Fail> {
        for (line, text) in [
            (SEVEN, SEVEN_LISTED),
            ("read 01070000", LEAST_LISTED),
            (
                "read 01aBfF00",
                "read: ok, 2 records\n0 module 65451\n3 end\nwritten again: the same bytes\n",
            ),
            (
                "read -",
                "read: refused 1 at 0 by codec (the bytes stop where a record should begin)\n",
            ),
            (
                "read 0107",
                "read: refused 1 at 0 by codec (the bytes stop inside this record)\n",
            ),
            (
                "read 010700020c00",
                "read: refused 2 at 5 by codec (this record may not stand here)\n",
            ),
            (
                "read 01070002100300000100",
                "read: refused 4 at 3 by codec (a value in this record's body is out of range)\n",
            ),
        ] {
            answered(&rt, line, true, text)?;
        }
        Ok(())
    }

    #[test]
    fn lines_that_say_nothing(rt: HostRuntime) -> Result<(), Fail> {
        for line in ["", "   ", "\t\r", "#", "# read -", "  #read -"] {
            answered(&rt, line, true, "")?;
        }
        Ok(())
    }

    #[test]
    fn blanks(rt: HostRuntime) -> Result<(), Fail> {
        for line in ["read 01070000\r", "read 01070000  ", " read\t 01070000"] {
            answered(&rt, line, true, LEAST_LISTED)?;
        }
        Ok(())
    }

    #[test]
    fn bad_lines(rt: HostRuntime) -> Result<(), Fail> {
        for (line, text) in [
            ("reads -", "line 7: there is no such command\n"),
            ("READ -", "line 7: there is no such command\n"),
            ("read", "line 7: an operand is missing\n"),
            ("read  \r", "line 7: an operand is missing\n"),
            ("read 01 07", "line 7: a word too many\n"),
            ("read 0107 #", "line 7: a word too many\n"),
            ("read 010", "line 7: an odd number of hex digits\n"),
            ("read 01g", "line 7: a character that is no hex digit\n"),
            ("read 0x", "line 7: a character that is no hex digit\n"),
            ("read 0@", "line 7: a character that is no hex digit\n"),
            ("read 0G", "line 7: a character that is no hex digit\n"),
            ("read 0`", "line 7: a character that is no hex digit\n"),
            ("read 0/", "line 7: a character that is no hex digit\n"),
            ("read 0:", "line 7: a character that is no hex digit\n"),
            ("read --", "line 7: a character that is no hex digit\n"),
        ] {
            answered(&rt, line, false, text)?;
        }
        Ok(())
    }
}
