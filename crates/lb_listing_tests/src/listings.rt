//! Reports that are read back, compared, merged, and written as JUnit XML.

use lb_listing::{
    ListingError, Measure, MergeError, compare, junit, merge, read_listing, status_by,
};
use std::alloc::{AllocError, Global};

/// Adds the status of a report by either measure, or the first line that is wrong.
fn push_read(alloc: Global, asked: &str, said: &mut String) -> Result<(), AllocError> {
    match read_listing(alloc, asked.as_bytes()) {
        Ok(found) => {
            let entries = found.entries.as_slice();
            let lenient = status_by(Measure::Lenient, entries);
            let strict = status_by(Measure::Strict, entries);
            write!(
                said,
                "{} traces, {lenient}, strict {strict}\n",
                entries.len()
            )
        }
        Err(ListingError::Fault(line)) => write!(said, "line {line}\n"),
        Err(ListingError::Memory(cause)) => Err(cause),
    }
}

/// Adds the differences between two reports, and the status by either measure.
fn push_comparison(alloc: Global, asked: &str, said: &mut String) -> Result<(), AllocError> {
    let (before, now) = asked.split_once("%\n").unwrap_or((asked, ""));
    let (Ok(before), Ok(now)) = (
        read_listing(alloc, before.as_bytes()),
        read_listing(alloc, now.as_bytes()),
    ) else {
        return said.push_str("no report\n");
    };
    let found = compare(alloc, Measure::Lenient, &before, &now)?;
    let strict = compare(alloc, Measure::Strict, &before, &now)?;
    let text = std::str::from_utf8(found.text.as_slice()).unwrap_or("no text");
    write!(said, "{text}{}, strict {}\n", found.status, strict.status)
}

/// Adds the one report that several make.
fn push_merged(alloc: Global, asked: &str, said: &mut String) -> Result<(), AllocError> {
    let mut texts = Vec::new(alloc);
    for text in asked.split("%\n") {
        texts.push(text.as_bytes().to_vec(alloc)?)?;
    }
    match merge(alloc, texts.as_slice()) {
        Ok(text) => said.push_str(std::str::from_utf8(text.as_slice()).unwrap_or("no text")),
        Err(MergeError::Fault { file, line }) => write!(said, "file {file}, line {line}\n"),
        Err(MergeError::Twice { file, line }) => write!(said, "again: file {file}, line {line}\n"),
        Err(MergeError::Memory(cause)) => Err(cause),
    }
}

/// Adds a report, and the remarks beside it, as JUnit XML.
fn push_suite(alloc: Global, asked: &str, said: &mut String) -> Result<(), AllocError> {
    let (report, remarks) = asked.split_once("%\n").unwrap_or((asked, ""));
    match read_listing(alloc, report.as_bytes()) {
        Ok(found) => {
            let text = junit(alloc, "pump", found.entries.as_slice(), remarks.as_bytes())?;
            said.push_str(std::str::from_utf8(text.as_slice()).unwrap_or("no text"))
        }
        Err(_) => said.push_str("no report\n"),
    }
}

/// Texts, and the result of reading each.
const READ: &str = "\
total 0 passed 0 fault 0 undefined 0 assertion 0 false 0
%answer
0 traces, 0, strict 1
%case
a passed
total passed
total 2 passed 2 fault 0 undefined 0 assertion 0 false 0
%answer
2 traces, 0, strict 0
%case
a assertion 0
total 1 passed 0 fault 0 undefined 0 assertion 1 false 0
%answer
1 traces, 0, strict 1
%case
a undefined 999999
total 1 passed 0 fault 0 undefined 1 assertion 0 false 0
%answer
1 traces, 1, strict 1
%case
a undefined 1000000
total 1 passed 0 fault 0 undefined 1 assertion 0 false 0
%answer
line 1
%case
a false 07
total 1 passed 0 fault 0 undefined 0 assertion 0 false 1
%answer
line 1
%case
a false
total 1 passed 0 fault 0 undefined 0 assertion 0 false 1
%answer
line 1
%case
a passed
a passed
total 2 passed 2 fault 0 undefined 0 assertion 0 false 0
%answer
line 2
%case
a passed
b passed
%answer
line 3
%case
a passed
total 2 passed 1 fault 0 undefined 0 assertion 0 false 0
%answer
line 2
%case
a passed
total 1 passed 1 fault 0 undefined 0 assertion 0 false 0
%answer
1 traces, 0, strict 0
%case
a passed
total 1 passed 1 fault 0 undefined 0 assertion 0 false 0
b passed
%answer
line 2
%case
a b passed
total 1 passed 1 fault 0 undefined 0 assertion 0 false 0
%answer
line 1
%case
%answer
line 1
";

/// Pairs of reports, their differences, and the statuses.
const COMPARISONS: &str = "\
a passed
b false 3
total 2 passed 1 fault 0 undefined 0 assertion 0 false 1
%
a passed
b false 3
total 2 passed 1 fault 0 undefined 0 assertion 0 false 1
%answer
baseline: same 2 changed 0 new 0 gone 0
0, strict 0
%case
a passed
total 1 passed 1 fault 0 undefined 0 assertion 0 false 0
%
a false 21
total 1 passed 0 fault 0 undefined 0 assertion 0 false 1
%answer
changed: a passed -> false 21
baseline: same 0 changed 1 new 0 gone 0
1, strict 1
%case
a false 20
b fault 1
c assertion 2
total 3 passed 0 fault 1 undefined 0 assertion 1 false 1
%
a false 21
b passed
c assertion 2
total 3 passed 1 fault 0 undefined 0 assertion 1 false 1
%answer
changed: a false 20 -> false 21
changed: b fault 1 -> passed
baseline: same 1 changed 2 new 0 gone 0
0, strict 0
%case
a passed
b passed
total 2 passed 2 fault 0 undefined 0 assertion 0 false 0
%
a assertion 4
c undefined 0
total 2 passed 0 fault 0 undefined 1 assertion 1 false 0
%answer
changed: a passed -> assertion 4
new: c undefined 0
gone: b passed
baseline: same 0 changed 1 new 1 gone 1
1, strict 1
%case
a passed
total 1 passed 1 fault 0 undefined 0 assertion 0 false 0
%
total 0 passed 0 fault 0 undefined 0 assertion 0 false 0
%answer
gone: a passed
baseline: same 0 changed 0 new 0 gone 1
0, strict 1
%case
total 0 passed 0 fault 0 undefined 0 assertion 0 false 0
%
x assertion 0
y passed
total 2 passed 1 fault 0 undefined 0 assertion 1 false 0
%answer
new: x assertion 0
new: y passed
baseline: same 0 changed 0 new 2 gone 0
0, strict 1
";

/// Reports, and their XML.
const SUITES: &str = "\
calm passed
stuck false 7
flicker assertion 3
total 3 passed 1 fault 0 undefined 0 assertion 1 false 1
%answer
<?xml version='1.0' encoding='UTF-8'?>
<testsuites>
<testsuite name='pump' tests='3' failures='1' errors='0' skipped='1'>
<testcase classname='pump' name='calm'/>
<testcase classname='pump' name='stuck'><failure type='false' message='false 7'/></testcase>
<testcase classname='pump' name='flicker'><skipped message='assertion 3'/></testcase>
</testsuite>
</testsuites>
%case
total 0 passed 0 fault 0 undefined 0 assertion 0 false 0
%answer
<?xml version='1.0' encoding='UTF-8'?>
<testsuites>
<testsuite name='pump' tests='0' failures='0' errors='0' skipped='0'>
</testsuite>
</testsuites>
%case
dry fault 0
empty undefined 2
total 2 passed 0 fault 1 undefined 1 assertion 0 false 0
%
dry fault 0: main.q, a / b with a = 5, b = 0 (pump.lus:14:9)
  a <> b & c > d is \"no\"\t`end` \u{7f}\u{e9}
%answer
<?xml version='1.0' encoding='UTF-8'?>
<testsuites>
<testsuite name='pump' tests='2' failures='2' errors='0' skipped='0'>
<testcase classname='pump' name='dry'><failure type='fault' message='fault 0'/></testcase>
<testcase classname='pump' name='empty'><failure type='undefined' message='undefined 2'/></testcase>
<system-err>dry fault 0: main.q, a / b with a = 5, b = 0 (pump.lus:14:9)
  a &lt;&gt; b &amp; c &gt; d is \"no\"\t`end` ???
</system-err>
</testsuite>
</testsuites>
";

/// Reports, and the one that they make.
const MERGES: &str = "\
a passed
total 1 passed 1 fault 0 undefined 0 assertion 0 false 0
%
total 0 passed 0 fault 0 undefined 0 assertion 0 false 0
%
c false 2
b fault 1
total 2 passed 0 fault 1 undefined 0 assertion 0 false 1
%answer
a passed
c false 2
b fault 1
total 3 passed 1 fault 1 undefined 0 assertion 0 false 1
%case
a passed
total 1 passed 1 fault 0 undefined 0 assertion 0 false 0
%
b passed
a passed
total 2 passed 2 fault 0 undefined 0 assertion 0 false 0
%answer
again: file 1, line 2
%case
a passed
total 1 passed 1 fault 0 undefined 0 assertion 0 false 0
%
b passed
%answer
file 1, line 2
%case
a passed
total 1 passed 1 fault 0 undefined 0 assertion 0 false 0
%
b passed
total 2 passed 2 fault 0 undefined 0 assertion 0 false 0
%
c passed
%answer
file 1, line 2
%case
a passed
a passed
total 2 passed 2 fault 0 undefined 0 assertion 0 false 0
%answer
file 0, line 2
%case
%answer
file 0, line 1
";

/// The question that the rows of a table ask.
#[derive(Clone, Copy)]
enum Asks {
    Read,
    Comparisons,
    Merges,
    Suites,
}

/// The tables.
static TABLES: [(Asks, &str); 4] = [
    (Asks::Read, READ),
    (Asks::Comparisons, COMPARISONS),
    (Asks::Merges, MERGES),
    (Asks::Suites, SUITES),
];

/// Adds the answer to the question of a row.
fn push_answer(
    alloc: Global,
    asks: Asks,
    asked: &str,
    said: &mut String,
) -> Result<(), AllocError> {
    match asks {
        Asks::Read => push_read(alloc, asked, said),
        Asks::Comparisons => push_comparison(alloc, asked, said),
        Asks::Merges => push_merged(alloc, asked, said),
        Asks::Suites => push_suite(alloc, asked, said),
    }
}

#[test]
fn reports_as_listings(rt: HostRuntime) -> Result<(), AllocError> {
    let mut said = String::new(rt.alloc());
    for (asks, rows) in TABLES {
        for row in rows.split("%case\n") {
            let (asked, wanted) = row.split_once("%answer\n").unwrap_or((row, ""));
            said.clear();
            push_answer(rt.alloc(), asks, asked, &mut said)?;
            assert_eq!(rt; said.as_str(), wanted);
        }
    }
    Ok(())
}
