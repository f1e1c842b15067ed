//! Rows of spellings and comparisons. The expected results come from exact arithmetic outside the
//! program.
mod vectors;

use cj_decimal::laws::worked_rows;
use cj_decimal::{Affine, Decimal, DecimalFault, Fixed18, digits_word, word_value};
use std::alloc::{AllocError, Global};
use std::fmt::Display;
use std::process::Abort;
use std::str::Split;
use std::test::Fail;
use vectors::{COMPARISONS, SPELLINGS};

#[test]
fn worked_rows_hold() {
    worked_rows();
}

/// Each line has a spelling, and its result as a whole number, by hand: its value, none, or its
/// fault.
const WHOLES: &str = "\
0|0\n\
7|7\n\
37|37\n\
10482|10482\n\
99999999999999999|99999999999999999\n\
100000000000000000|100000000000000000\n\
999999999999999999|999999999999999999\n\
1000000000000000000|none\n\
18446744073709551621|none\n\
1e18|none\n\
12.0|12\n\
1e2|100\n\
-0|0\n\
-5|-5\n\
-10482|-10482\n\
-999999999999999999|-999999999999999999\n\
-1000000000000000000|none\n\
-12.0|-12\n\
-1.5|none\n\
-|NotANumber\n\
-05|NotANumber\n\
--5|NotANumber\n\
5-|NotANumber\n\
1.5|none\n\
01|NotANumber\n\
00|NotANumber\n\
007|NotANumber\n\
7:|NotANumber\n\
7/|NotANumber\n\
|NotANumber\n\
1111111111111111111111111111111111111|NumberRange\n\
1e1000001|NumberRange";

/// Each line has a spelling, and the number of its few digits, without a sign and with one, by
/// hand.
const FEW: &str = "\
0|0|0\n\
7|7|7\n\
37|37|37\n\
482|482|482\n\
1048|1048|1048\n\
10482|10482|10482\n\
104829|104829|104829\n\
1048290|1048290|1048290\n\
10482907|10482907|10482907\n\
104829075|104829075|104829075\n\
999999999999999999|999999999999999999|999999999999999999\n\
1000000000000000000|none|none\n\
00|none|none\n\
048|none|none\n\
048290|none|none\n\
1:48290|none|none\n\
10482/0|none|none\n\
104829:|none|none\n\
1048.90|none|none\n\
10482e1|none|none\n\
-0|none|0\n\
-37|none|-37\n\
-10482|none|-10482\n\
-999999999999999999|none|-999999999999999999\n\
-1000000000000000000|none|none\n\
-048|none|none\n\
--48|none|none\n\
48-|none|none\n\
-|none|none\n\
|none|none";

/// Returns the result of reading a spelling, as a pair of numbers.
fn parts(spelling: &[u8]) -> Result<(i128, i32), DecimalFault> {
    match Decimal::read(spelling) {
        Ok(decimal) => Ok((decimal.coefficient(), decimal.power())),
        Err(fault) => Err(fault),
    }
}

/// Returns the fixed number of a spelling that has one.
fn fixed(rt: &impl Abort, spelling: &str) -> Fixed18 {
    let decimal = Decimal::read(spelling.as_bytes()).expect(rt, "a number in range");
    decimal.fixed18().expect(rt, "a fixed number")
}

/// Returns `front`, then this number of zeros, then `back`.
fn padded(alloc: Global, front: &[u8], zeros: usize, back: &[u8]) -> Result<Vec<u8>, AllocError> {
    let mut text = Vec::new(alloc);
    text.extend_from_slice(front)?;
    for _ in 0..zeros {
        text.push(b'0')?;
    }
    text.extend_from_slice(back)?;
    Ok(text)
}

/// Returns a number, or `none`.
fn shown<T: Display + Drop>(alloc: Global, number: Option<T>) -> Result<String, AllocError> {
    match number {
        Some(number) => format!(in alloc; "{number}"),
        None => String::from_str(alloc, "none"),
    }
}

/// Returns the line of the table for a spelling, with the program's results.
fn line_of(alloc: Global, text: &str) -> Result<String, AllocError> {
    let decimal = match Decimal::read(text.as_bytes()) {
        Ok(decimal) => decimal,
        Err(fault) => return format!(in alloc; "{text}|{fault:?}"),
    };
    let whole = shown(alloc, decimal.whole())?;
    let units = match decimal.fixed18() {
        Some(fixed) => shown(alloc, Some(fixed.units()))?,
        None => shown::<i128>(alloc, None)?,
    };
    format!(in alloc;
        "{text}|{}|{}|{whole}|{units}",
        decimal.coefficient(),
        decimal.power()
    )
}

/// Returns the program's result for a spelling as a whole number.
fn whole_of(alloc: Global, text: &str) -> Result<String, AllocError> {
    match Decimal::read_whole(text.as_bytes()) {
        Ok(whole) => shown(alloc, whole),
        Err(fault) => format!(in alloc; "{fault:?}"),
    }
}

/// Compares texts. The asserts have functions of their own, because they make the proof of a
/// function slower.
fn check_text(rt: &impl Abort, got: &str, wanted: &str, row: &str) {
    assert_eq!(rt; got, wanted, "{row}");
}

/// Compares answers.
fn check_answer(rt: &impl Abort, got: bool, wanted: bool, row: &str) {
    assert_eq!(rt; got, wanted, "{row}");
}

/// Returns the first field of a line.
fn first_field(line: &str) -> &str {
    match line.split_once('|') {
        Some((text, _)) => text,
        None => line,
    }
}

/// Returns the next field of a line, or an empty text if it has no more.
fn next_field<'a>(fields: &mut Split<'a, char>) -> &'a str {
    fields.next().unwrap_or_default()
}

/// Checks a line with a spelling, and its result as a whole number.
fn check_whole(rt: &impl Abort, alloc: Global, text: &str, wanted: &str) -> Result<(), Fail> {
    let answer = whole_of(alloc, text)?;
    check_text(rt, &answer, wanted, text);
    Ok(())
}

#[test]
fn whole_numbers_are_read(rt: HostRuntime) -> Result<(), Fail> {
    for line in WHOLES.lines() {
        let (text, wanted) = line.split_once('|').expect(&rt, "two fields");
        check_whole(&rt, rt.alloc(), text, wanted)?;
    }
    Ok(())
}

/// Returns the line of the table for a spelling of few digits, with the program's results.
fn few_of(alloc: Global, text: &str) -> Result<String, AllocError> {
    let few = shown(alloc, Decimal::read_few(text.as_bytes()))?;
    let signed = shown(alloc, Decimal::read_few_signed(text.as_bytes()))?;
    format!(in alloc; "{text}|{few}|{signed}")
}

#[test]
fn few_digits_are_read(rt: HostRuntime) -> Result<(), Fail> {
    for line in FEW.lines() {
        let answer = few_of(rt.alloc(), first_field(line))?;
        check_text(&rt, &answer, line, line);
    }
    Ok(())
}

/// Checks the word of a count of at most eight digits, and the count that it spells.
fn check_word(rt: &impl Abort, count: u64, wanted: u64) {
    let word = digits_word(count);
    assert_eq!(rt; word, wanted, "{count}");
    if count < 100_000_000 {
        assert_eq!(rt; word_value(word), count, "{count}");
    }
}

#[test]
fn counts_have_words(rt: HostRuntime) {
    let rows: [(u64, u64); 9] = [
        (0, 0),
        (7, 0x7),
        (10, 0x100),
        (482, 0x4_0802),
        (10_482, 0x1_0004_0802),
        (12_345_678, 0x102_0304_0506_0708),
        (99_999_999, 0x909_0909_0909_0909),
        (100_000_000, 0xffff_ffff_ffff_ffff),
        (18_446_744_073_709_551_615, 0xffff_ffff_ffff_ffff),
    ];
    for (count, word) in rows.iter() {
        check_word(&rt, *count, *word);
    }
}

/// Each line has digits of a number, a count, and whether the number is below the count, by hand.
/// Only a number of at most eight digits is.
const BELOW: &str = "\
0|0|false\n\
0|1|true\n\
7|7|false\n\
7|8|true\n\
9|10|true\n\
10|9|false\n\
482|483|true\n\
482|482|false\n\
99999999|99999999|false\n\
99999999|100000000|true\n\
99999999|18446744073709551615|true\n\
123456789|1234567890|false\n\
-0|1|false\n\
1.0|2|false\n\
1e1|11|false";

/// Returns whether the number from `start` on is below a count. None if it is no number in range.
fn is_below(line: &[u8], start: usize, count: u64) -> Option<bool> {
    let stop = line.len();
    if start >= stop || Decimal::read(&line[start..stop]).is_err() {
        return None;
    }
    Some(Decimal::is_few_below_in(line, start, stop, digits_word(count)))
}

/// Checks a line of that table. Eight bytes come before the number.
fn check_below(rt: &impl Abort, alloc: Global, row: &str) -> Result<(), Fail> {
    let mut fields = row.split('|');
    let line = format!(in alloc; "        {}", next_field(&mut fields))?;
    let count: u64 = next_field(&mut fields).parse()?;
    let below = is_below(line.as_bytes(), 8, count).expect(rt, "a number");
    check_answer(rt, below, next_field(&mut fields) == "true", row);
    Ok(())
}

#[test]
fn few_digits_are_below_counts(rt: HostRuntime) -> Result<(), Fail> {
    for row in BELOW.lines() {
        check_below(&rt, rt.alloc(), row)?;
    }
    Ok(())
}

/// Returns the whole value of a line of spellings, or its fault.
fn whole_field<'a>(line: &'a str) -> &'a str {
    let mut fields = line.split('|');
    fields.next();
    let fault = next_field(&mut fields);
    fields.nth(1).unwrap_or(fault)
}

#[test]
fn spellings_are_read_as_whole_numbers(rt: HostRuntime) -> Result<(), Fail> {
    for line in SPELLINGS.lines() {
        check_whole(&rt, rt.alloc(), first_field(line), whole_field(line))?;
    }
    Ok(())
}

#[test]
fn spellings_have_their_values(rt: HostRuntime) -> Result<(), Fail> {
    for line in SPELLINGS.lines() {
        let answer = line_of(rt.alloc(), first_field(line))?;
        check_text(&rt, &answer, line, line);
    }
    Ok(())
}

/// Returns how an image compares with a number: the image of `v` by a scale and a shift.
fn compared(
    rt: &impl Abort,
    alloc: Global,
    image: Affine,
    v: i64,
    q: &str,
) -> Result<String, Fail> {
    assert!(rt; v > -1_000_000_000_000_000_000);
    assert!(rt; v < 1_000_000_000_000_000_000);
    let order = image.compare(v, fixed(rt, q));
    Ok(format!(in alloc; "{order:?}")?)
}

/// Checks a line with a scale, a shift, a number, another, and how they compare.
fn check_comparison(rt: &impl Abort, alloc: Global, line: &str) -> Result<(), Fail> {
    let mut fields = line.split('|');
    let scale = fixed(rt, next_field(&mut fields));
    let shift = fixed(rt, next_field(&mut fields));
    let v: i64 = next_field(&mut fields).parse()?;
    let q = next_field(&mut fields);
    let order = compared(rt, alloc, Affine::new(scale, shift), v, q)?;
    check_text(rt, &order, next_field(&mut fields), line);
    Ok(())
}

#[test]
fn images_compare_exactly(rt: HostRuntime) -> Result<(), Fail> {
    for line in COMPARISONS.lines() {
        check_comparison(&rt, rt.alloc(), line)?;
    }
    Ok(())
}

/// Compares two numbers, and then whether they are the same as expected.
fn check_same(rt: &impl Abort, left: &str, right: &str, wanted: bool) -> Result<(), Fail> {
    let same = Decimal::read(left.as_bytes())? == Decimal::read(right.as_bytes())?;
    check_answer(rt, same, wanted, left);
    Ok(())
}

#[test]
fn equality_is_that_of_values(rt: HostRuntime) -> Result<(), Fail> {
    let rows: [(&str, &str, bool); 8] = [
        ("1.0", "1", true),
        ("1e2", "100", true),
        ("-0", "0e5", true),
        ("0.1e1000001", "1e1000000", true),
        ("1", "-1", false),
        ("1", "10", false),
        ("1.000000000000000001", "1", false),
        ("1e1000000", "1e-1000000", false),
    ];
    for (left, right, equal) in rows.iter() {
        check_same(&rt, left, right, *equal)?;
    }
    Ok(())
}

/// Reads a long spelling: `front`, many zeros, and `back`.
fn check_padded(
    rt: &impl Abort,
    alloc: Global,
    front: &str,
    back: &str,
    wanted: Result<(i128, i32), DecimalFault>,
) -> Result<(), Fail> {
    let spelling = padded(alloc, front.as_bytes(), 2_000_000, back.as_bytes())?;
    assert_eq!(rt; parts(&spelling), wanted, "{front}..{back}");
    Ok(())
}

#[test]
fn long_spellings_are_read_in_one_pass(rt: HostRuntime) -> Result<(), Fail> {
    let (alloc, range, none) = (
        rt.alloc(),
        DecimalFault::NumberRange,
        DecimalFault::NotANumber,
    );
    check_padded(&rt, alloc, "0.", "1e2000001", Ok((1, 0)))?;
    check_padded(&rt, alloc, "1", "e-2000000", Ok((1, 0)))?;
    check_padded(&rt, alloc, "-2.5e-", "3", Ok((-25, -4)))?;
    check_padded(&rt, alloc, "1", "", Err(range))?;
    check_padded(&rt, alloc, "1", ".", Err(none))
}
