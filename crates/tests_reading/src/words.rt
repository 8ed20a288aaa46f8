use std::alloc::{AllocError, Global};
use std::test::Fail;
use uc_term::{Seq, Text};
use uc_words::{Command, WordsFault, number, read_words};

// lines that have no reading, whose words stand between bars
const NO_READING: &str = "
prove
prove|--budget|5|--budget|6|r5.p
prove|--order|rpo|r5.p
help
--help
check|r1.p
show|--root=|r1.p
show|--root|--|r1.p
show|--root|-|r1.p
show|r1.p|--root
show|
show|--|
show|-r1.p
show|r1.p|r2.p
show|--root|a|--root|a|r1.p
show|--budget=5|r1.p
show|--trace|r1.p
show|a\tb
show|\u{e9}
prove|--trace=1|r5.p
prove|--trace|r5.p|--trace
prove|--steps|5|r5.p
prove|--budget|+5|r5.p
prove|--budget|10000001|r5.p
prove|--budget|00000000001|r5.p
prove|--pairs|0|r5.p
prove|--pairs|8000001|r5.p
prove|--workers|0|r5.p
prove|--workers|65|r5.p
prove|--order=lpo|--weights|f=1|r5.p
prove|--w0=1|--order|lpo|r5.p
prove|--w0|0|r5.p
prove|--w0|1000001|r5.p
prove|--weights|f=00000000001|r5.p
prove|--weights|f=4294967296|r5.p
prove|--weights|f=1,|r5.p
prove|--precedence|f <g|r5.p
prove|--precedence|f<|r5.p
prove|--precedence|F|r5.p
prove|--precedence|''|r5.p
prove|--precedence|'f|r5.p
prove|--precedence|'\\a'|r5.p
decide|r5.p
decide|--steps|10000001|r5.p|a = b
rewrite|--limit|10000001|r5.p|f(a)
gen|0|1
gen|2001|1
gen|5|2147483648
gen|5
gen|--root|x|5|1
table|r4.p
table|r4.p|t|t
table|--size|2|r4.p|t
table|--budget|5|r4.p|t
model
model|r4.p|t
model|--size|0|r4.p
model|--size|9|r4.p
model|--size=2|--size=3|r4.p
model|--budget|10000001|r4.p
model|--pairs|5|r4.p
model|--workers|1|r4.p
model|--order|lpo|r4.p
prove|--size|2|r5.p
prove|--certificate=1|r5.p
prove|--certificate|r5.p|--certificate
prove|--certificates|r5.p
decide|--certificate|r5.p|a = b
decide|--system|r8.p|a = b|--system
decide|--system=|r8.p|a = b
decide|--system||r8.p|a = b
decide|--system|-|r8.p|a = b
decide|--system|--|r8.p|a = b
decide|--system|r8.c|r8.p
decide|--system|r8.c|--system|r8.c|r8.p|a = b
decide|--systems|r8.c|r8.p|a = b
decide|--system|r8.c|--order|lpo|r8.p|a = b
decide|--order=kbo|--system=r8.c|r8.p|a = b
decide|--system|r8.c|r8.p|a = b|--precedence|f
decide|--weights|f=1|--system|r8.c|r8.p|a = b
decide|--system|r8.c|--w0|1|r8.p|a = b
decide|--budget=100000|--system|r8.c|r8.p|a = b
decide|--system|r8.c|r8.p|a = b|--pairs=1000000
decide|--system|r8.c|--limit|1|r8.p|a = b
decide|--system|r8.c|--workers|65|r8.p|a = b
decide|--system|r8.c|--steps|10000001|r8.p|a = b
prove|--system|r8.c|r8.p
rewrite|--system|r8.c|r8.p|f(a)
certify|--system|r8.c|r8.p|r8.c
gen|--system|r8.c|5|1
check|--certificate|r5.p|r5.s
certify|r8.p
certify|r8.p|r8.c|r8.c
certify|--certificate|r8.p|r8.c
certify|--trace|r8.p|r8.c
certify|--order|lpo|r8.p|r8.c
certify|--budget|5|r8.p|r8.c";

// lines that have one, each with its command behind an arrow
const ONE_READING: &str =
    "show|--|--root => Show 100000 1000000 1 100000 4096 4 1 false false false;--root
prove|--budget=0|r5.p|--trace|--workers|64 => Prove 0 1000000 64 100000 4096 4 1 true false false;r5.p
prove|--budget|10000000|--pairs|8000000|r5.p => Prove 10000000 8000000 1 100000 4096 4 1 false false false;r5.p
prove|--pairs=1|--workers=1|r5.p => Prove 100000 1 1 100000 4096 4 1 false false false;r5.p
decide|--steps=10000000|--w0=1000000|r5.p|a = b => Decide 100000 1000000 1 10000000 4096 4 1000000 false false false;r5.p;a = b
decide|--steps=0|r5.p|a = b|b = a => Decide 100000 1000000 1 0 4096 4 1 false false false;r5.p;a = b;b = a
decide|--system|r8.c|r8.p|a = b => Decide 100000 1000000 1 100000 4096 4 1 false false false;r8.p;a = b@r8.c
decide|r8.p|a = b|--workers|8|--system=-x=y|--steps|0|b = a|--root|lib => Decide 100000 1000000 8 0 4096 4 1 false false false;r8.p;a = b;b = a:lib@-x=y
decide|--|--system|r8.c => Decide 100000 1000000 1 100000 4096 4 1 false false false;--system;r8.c
rewrite|--limit=10000000|r5.p|f(a) => Rewrite 100000 1000000 1 100000 10000000 4 1 false false false;r5.p;f(a)
rewrite|--limit=0|r5.p|f(a) => Rewrite 100000 1000000 1 100000 0 4 1 false false false;r5.p;f(a)
gen|1|0 => Gen 100000 1000000 1 100000 4096 4 1 false false false;1;0
gen|2000|2147483647 => Gen 100000 1000000 1 100000 4096 4 1 false false false;2000;2147483647
check|--root=-x=y|-|--|-- => Check 100000 1000000 1 100000 4096 4 1 false false false;-;--:-x=y
order|--precedence|f<'g<\\''<f|r5.p|--order=lpo => Order 100000 1000000 1 100000 4096 4 1 false false true;r5.p<f<g<'<f
order|--w0|2|--weights='f'=007,g_1=4294967295|r5.p => Order 100000 1000000 1 100000 4096 4 2 false false false;r5.p,f=7,g_1=4294967295
table|--root|x|r4.p|t => Table 100000 1000000 1 100000 4096 4 1 false false false;r4.p;t:x
model|r4.p => Model 100000 1000000 1 100000 4096 4 1 false false false;r4.p
model|--size=1|--budget|0|r4.p => Model 0 1000000 1 100000 4096 1 1 false false false;r4.p
model|r4.p|--budget=10000000|--size|08|--root|x => Model 10000000 1000000 1 100000 4096 8 1 false false false;r4.p:x
prove|--certificate|r8.p => Prove 100000 1000000 1 100000 4096 4 1 false true false;r8.p
prove|--trace|r8.p|--certificate => Prove 100000 1000000 1 100000 4096 4 1 true true false;r8.p
prove|--order=lpo|--certificate|--budget|9|r8.p|--trace => Prove 9 1000000 1 100000 4096 4 1 true true true;r8.p
certify|r8.p|r8.c => Certify 100000 1000000 1 100000 4096 4 1 false false false;r8.p;r8.c
certify|--root=x|--|--certificate|r8.c => Certify 100000 1000000 1 100000 4096 4 1 false false false;--certificate;r8.c:x";

fn words(alloc: Global, line: &str) -> Result<Vec<String>, AllocError> {
    let mut words = Vec::new(alloc);
    for word in line.split('|') {
        words.push(String::from_str(alloc, word)?)?;
    }
    Ok(words)
}

fn is_usage(alloc: Global, line: &str) -> Result<bool, AllocError> {
    let words = words(alloc, line)?;
    Ok(matches!(read_words(alloc, &words), Err(WordsFault::Usage)))
}

fn put_texts(out: &mut Text, mark: &[u8], texts: &Seq<Text>) -> Result<(), AllocError> {
    for text in texts.as_slice() {
        out.extend(mark)?;
        out.extend(text.as_bytes())?;
    }
    Ok(())
}

fn put_weights(
    alloc: Global,
    out: &mut Text,
    weights: &Seq<(Text, u32)>,
) -> Result<(), AllocError> {
    for weight in weights.as_slice() {
        out.extend(b",")?;
        out.extend(weight.0.as_bytes())?;
        out.extend(format!(in alloc; "={}", weight.1)?.as_bytes())?;
    }
    Ok(())
}

fn put_name(out: &mut Text, mark: &[u8], name: &Option<Text>) -> Result<(), AllocError> {
    match name {
        Some(name) => {
            out.extend(mark)?;
            out.extend(name.as_bytes())
        }
        None => Ok(()),
    }
}

fn told(alloc: Global, command: &Command) -> Result<Text, AllocError> {
    let Command {
        verb,
        budget,
        pairs,
        workers,
        steps,
        limit,
        size,
        trace,
        certificate,
        order,
        ..
    } = command;
    let numbers = format!(in alloc;
        "{verb:?} {budget} {pairs} {workers} {steps} {limit} {size} {} {trace} {certificate} {}",
        order.w0, order.lpo
    )?;
    let mut out = Text::from_bytes(alloc, numbers.as_bytes())?;
    put_texts(&mut out, b";", &command.positionals)?;
    put_name(&mut out, b":", &command.root)?;
    put_name(&mut out, b"@", &command.system)?;
    put_texts(&mut out, b"<", &order.precedence)?;
    put_weights(alloc, &mut out, &order.weights)?;
    Ok(out)
}

fn is_told(alloc: Global, row: &str) -> Result<bool, AllocError> {
    let Some((line, wanted)) = row.split_once(" => ") else {
        return Ok(false);
    };
    let words = words(alloc, line)?;
    match read_words(alloc, &words) {
        Ok(command) => Ok(told(alloc, &command)?.as_bytes() == wanted.as_bytes()),
        Err(_) => Ok(false),
    }
}

#[test]
fn no_reading(rt: HostRuntime) -> Result<(), Fail> {
    let none = Vec::new(rt.alloc());
    assert!(rt; matches!(read_words(rt.alloc(), &none), Err(WordsFault::Usage)));
    for line in NO_READING.split('\n') {
        assert!(rt; is_usage(rt.alloc(), line)?, "{line:?}");
    }
    Ok(())
}

#[test]
fn one_reading(rt: HostRuntime) -> Result<(), Fail> {
    for row in ONE_READING.split('\n') {
        assert!(rt; is_told(rt.alloc(), row)?, "{row:?}");
    }
    assert_eq!(rt; number(b"0123456789"), Some(123_456_789));
    Ok(())
}
