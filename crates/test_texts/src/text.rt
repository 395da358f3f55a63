//! Tests of the action language: each refused text with its place, and canonical texts.
use std::alloc::Global;
use std::test::Fail;
use sv_text::{ParseFault, TextCause, TextFault, append_action, parse_action, print_action};

/// A refused text on each line, behind its cause and its place.
const REFUSED: &str = "\
Character 0 =
Character 0 READS 0 writes { }
Character 6 reads @0. writes { }
Character 7 reads 0, 1 writes { }
Character 23 reads 0 writes 0 { set @0 1; }
Character 23 reads 0 writes 0 { set @.0 1; }
Character 27 reads 0 writes 0 { set @0.0.1 1; }
Character 25 reads 0 writes 0 { if [1 = 1] { } }
Character 25 reads 0 writes 0 { if [1 & 1] { } }
Character 33 reads 0 writes 0 { set @0.0 (1 + é); }
Character 29 reads 0 writes 0 { set @0.0 1A; }
Character 20 reads 0 writes { }  #
Number 0 01
Number 6 reads 00 writes { }
Number 6 reads -0 writes { }
Number 6 reads -1 writes { }
Number 6 reads 65536 writes { }
Number 5 reads70000 writes { }
Number 5 reads00 writes { }
Number 9 reads 0 1-1 writes { }
Number 6 reads @256.300 writes { }
Number 44 reads 0 1 2 3 4 5 6 7 8 9 10 11 12 13 14 15 65536 writes { }
Number 15 reads 0 writes 99999999999999999999 { }
Number 20 reads 0 writes 0 at 1000001 0 { }
Number 22 reads 0 writes 0 at 0 -1000001 { }
Number 20 reads 0 writes 0 at 99999999999999999999 0 { }
Number 23 reads 0 writes 0 { set @0.256 1; }
Number 23 reads 0 writes 0 { set @65536.0 1; }
Number 23 reads 0 writes 0 { set @0.01 1; }
Number 28 reads 0 writes 0 { set @0.0 @00.1; }
Number 28 reads 0 writes 0 { set @0.0 9223372036854775808; }
Number 33 reads 0 writes 0 { set @0.0 (1 + -9223372036854775809); }
Number 34 reads 0 writes 0 { set @0.0 (@0.0 007); }
Number 21 reads 0 writes 0 { } 00
Expected 0 
Expected 0 writes 0 { }
Expected 6 reads writes { }
Expected 5 reads0 writes { }
Expected 7 reads 0writes { }
Expected 16 reads 0 writes 0
Expected 17 reads 0 writes 0 ; { }
Expected 22 reads 0 writes 0 at 1 { }
Expected 18 reads 0 writes 0 {
Expected 19 reads 0 writes 0 { sett @0.0 1; }
Expected 23 reads 0 writes 0 { set 5 1; }
Expected 23 reads 0 writes 0 { set 99999999999999999999 1; }
Expected 29 reads 0 writes 0 { set @0.0 1}
Expected 30 reads 0 writes 0 { set @0.0 1;; }
Expected 34 reads 0 writes 0 { set @0.0 (@0.0 -1); }
Expected 34 reads 0 writes 0 { set @0.0 (@0.0 99999999999999999999); }
Expected 30 reads 0 writes 0 { set @0.0 (1-1); }
Expected 30 reads 0 writes 0 { set @0.0 (1min 2); }
Expected 34 reads 0 writes 0 { set @0.0 (1 min2); }
Expected 31 reads 0 writes 0 { set @0.0 (1 <= 2); }
Expected 22 reads 0 writes 0 { if @0.0 { } }
Expected 25 reads 0 writes 0 { if [1 + 1] { } }
Expected 31 reads 0 writes 0 { if ([1 < 1] min [1 < 1]) { } }
Expected 39 reads 0 writes 0 { if [1 < 1] { } else if [1 < 1] { } }
Expected 21 reads 0 writes 0 { } else { }
Expected 21 reads 0 writes 0 { } }
NotRead 15 reads 0 writes 1 { }
NotRead 19 reads 0 1 writes 1 2 { }
NotRead 17 reads 1 writes 1 0 { }
NotRead 21 reads 5 writes { set @0.0 1; }
NotRead 36 reads 0 writes 0 { set @0.0 (@0.0 + @1.0); }
NotRead 23 reads 0 writes 0 { if [@7.0 < 1] { } }
Order 8 reads 0 0 writes { }
Order 8 reads 1 0 writes { }
Order 10 reads 0 2 1 writes { }
Order 44 reads 0 1 2 3 4 5 6 7 8 9 10 11 12 13 14 15 3 writes { }
Order 19 reads 0 1 writes 1 0 { }
Order 19 reads 0 1 writes 0 0 { }
TooMany 44 reads 0 1 2 3 4 5 6 7 8 9 10 11 12 13 14 15 16 writes { }
TooMany 44 reads 0 1 2 3 4 5 6 7 8 9 10 11 12 13 14 15 65535 writes { }
TooLarge 403 reads 0 writes 0 { set @0.0 1; set @0.0 1; set @0.0 1; set @0.0 1; set @0.0 1; set @0.0 1; set @0.0 1; set @0.0 1; set @0.0 1; set @0.0 1; set @0.0 1; set @0.0 1; set @0.0 1; set @0.0 1; set @0.0 1; set @0.0 1; set @0.0 1; set @0.0 1; set @0.0 1; set @0.0 1; set @0.0 1; set @0.0 1; set @0.0 1; set @0.0 1; set @0.0 1; set @0.0 1; set @0.0 1; set @0.0 1; set @0.0 1; set @0.0 1; set @0.0 1; set @0.0 1; set @0.0 1; }
TooLarge 401 reads 0 writes 0 { set @0.0 1; set @0.0 1; set @0.0 1; set @0.0 1; set @0.0 1; set @0.0 1; set @0.0 1; set @0.0 1; set @0.0 1; set @0.0 1; set @0.0 1; set @0.0 1; set @0.0 1; set @0.0 1; set @0.0 1; set @0.0 1; set @0.0 1; set @0.0 1; set @0.0 1; set @0.0 1; set @0.0 1; set @0.0 1; set @0.0 1; set @0.0 1; set @0.0 1; set @0.0 1; set @0.0 1; set @0.0 1; set @0.0 1; set @0.0 1; set @0.0 1; set @0.0 (1 + 1); }
TooLarge 403 reads 0 writes 0 { set @0.0 1; set @0.0 1; set @0.0 1; set @0.0 1; set @0.0 1; set @0.0 1; set @0.0 1; set @0.0 1; set @0.0 1; set @0.0 1; set @0.0 1; set @0.0 1; set @0.0 1; set @0.0 1; set @0.0 1; set @0.0 1; set @0.0 1; set @0.0 1; set @0.0 1; set @0.0 1; set @0.0 1; set @0.0 1; set @0.0 1; set @0.0 1; set @0.0 1; set @0.0 1; set @0.0 1; set @0.0 1; set @0.0 1; set @0.0 1; set @0.0 1; set @0.0 1; if [1 < 1] { } }
TooLarge 371 reads 0 writes 0 { set @0.0 1; set @0.0 1; set @0.0 1; set @0.0 1; set @0.0 1; set @0.0 1; set @0.0 1; set @0.0 1; set @0.0 1; set @0.0 1; set @0.0 1; set @0.0 1; set @0.0 1; set @0.0 1; set @0.0 1; set @0.0 1; set @0.0 1; set @0.0 1; set @0.0 1; set @0.0 1; set @0.0 1; set @0.0 1; set @0.0 1; set @0.0 1; set @0.0 1; set @0.0 1; set @0.0 1; set @0.0 1; set @0.0 (((((((1 + 1) + 1) + 1) + 1) + 1) + 1) + 1); }
NotRead 401 reads 0 writes 0 { set @0.0 1; set @0.0 1; set @0.0 1; set @0.0 1; set @0.0 1; set @0.0 1; set @0.0 1; set @0.0 1; set @0.0 1; set @0.0 1; set @0.0 1; set @0.0 1; set @0.0 1; set @0.0 1; set @0.0 1; set @0.0 1; set @0.0 1; set @0.0 1; set @0.0 1; set @0.0 1; set @0.0 1; set @0.0 1; set @0.0 1; set @0.0 1; set @0.0 1; set @0.0 1; set @0.0 1; set @0.0 1; set @0.0 1; set @0.0 1; set @0.0 1; set @0.0 (@1.0 + 1); }
TooDeep 35 reads 0 writes 0 { set @0.0 (((((((1 + 1) + 1) + 1) + 1) + 1) + 1) + 1); }
TooDeep 35 reads 0 writes 0 { set @0.0 ((((((((1 + 1) + 1) + 1) + 1) + 1) + 1) + 1) + 1); }
TooDeep 50 reads 0 writes 0 { if not not not not not not not not [1 < 1] { } }
TooDeep 47 reads 0 writes 0 { if not not not not not not [1 < 1] { } }
TooDeep 101 reads 0 writes 0 { if [1 < 1] { if [1 < 1] { if [1 < 1] { if [1 < 1] { if [1 < 1] { if [1 < 1] { if [1 < 1] { } } } } } } } }";

/// A text on each line, and behind the bar the canonical text of its action.
const ACCEPTED: &str = "\
reads 0 writes { }|reads 0 writes { }
reads 0 1 writes 1 { set @1.0 (@1.0 + @0.0); }|reads 0 1 writes 1 { set @1.0 (@1.0 + @0.0); }
reads 2 7 writes 2 7 { if [5 <= @2.2] { set @2.2 (@2.2 - 5); set @7.2 (@7.2 + 5); } }|reads 2 7 writes 2 7 { if [5 <= @2.2] { set @2.2 (@2.2 - 5); set @7.2 (@7.2 + 5); } }
reads 3 writes 3 { if not [@3.1 == 0] { set @3.0 -1; } else { set @3.0 (@3.0 max 0); } }|reads 3 writes 3 { if not [@3.1 == 0] { set @3.0 -1; } else { set @3.0 (@3.0 max 0); } }
reads 0 1 2 3 4 5 6 7 8 9 10 11 12 13 14 15 writes { }|reads 0 1 2 3 4 5 6 7 8 9 10 11 12 13 14 15 writes { }
reads 3 writes 3 at 0 0 { }|reads 3 writes 3 { }
reads 3 writes 3 at -1000000 1000000 { }|reads 3 writes 3 at -1000000 1000000 { }
reads 3 writes 3 { if [1 < 2] { } else { } }|reads 3 writes 3 { if [1 < 2] { } }
reads 0 writes 0 { if [0 < 1] { } else { set @0.0 1; } }|reads 0 writes 0 { if [0 < 1] { } else { set @0.0 1; } }
reads 0 writes 0{set@0.0-1;}|reads 0 writes 0 { set @0.0 -1; }
reads 0 writes 0{if[0<1]{if[1<2]{}else{}}else{if[2<3]{}else{}}}|reads 0 writes 0 { if [0 < 1] { if [1 < 2] { } } else { if [2 < 3] { } } }
reads 0 writes 0{if[1<=2]{if not[1<2]{set@0.0(1 max 2);}set@0.1 3;}else{set@0.2(4%5);}set@0.3 6;}|reads 0 writes 0 { if [1 <= 2] { if not [1 < 2] { set @0.0 (1 max 2); } set @0.1 3; } else { set @0.2 (4 % 5); } set @0.3 6; }
reads 0 writes{if not not([1==2]or not([3<4]and[5<=6])){}}|reads 0 writes { if not not ([1 == 2] or not ([3 < 4] and [5 <= 6])) { } }
reads\t7  writes\r{ }|reads 7 writes { }
reads 65535 writes 65535 { set @65535.255 -9223372036854775808; }|reads 65535 writes 65535 { set @65535.255 -9223372036854775808; }
reads 0 writes { set @0.0 9223372036854775807; }|reads 0 writes { set @0.0 9223372036854775807; }
reads 0 writes 0 { if ((not [1 == 2] and [1 <= 2]) or [1 < 2]) { set @0.0 (((((1 + 2) - 3) * 4) / 5) % 6); } }|reads 0 writes 0 { if ((not [1 == 2] and [1 <= 2]) or [1 < 2]) { set @0.0 (((((1 + 2) - 3) * 4) / 5) % 6); } }
reads 0 writes 0 { set @0.0 1; set @0.0 1; set @0.0 1; set @0.0 1; set @0.0 1; set @0.0 1; set @0.0 1; set @0.0 1; set @0.0 1; set @0.0 1; set @0.0 1; set @0.0 1; set @0.0 1; set @0.0 1; set @0.0 1; set @0.0 1; set @0.0 1; set @0.0 1; set @0.0 1; set @0.0 1; set @0.0 1; set @0.0 1; set @0.0 1; set @0.0 1; set @0.0 1; set @0.0 1; set @0.0 1; set @0.0 1; set @0.0 1; set @0.0 1; set @0.0 1; set @0.0 1; }|reads 0 writes 0 { set @0.0 1; set @0.0 1; set @0.0 1; set @0.0 1; set @0.0 1; set @0.0 1; set @0.0 1; set @0.0 1; set @0.0 1; set @0.0 1; set @0.0 1; set @0.0 1; set @0.0 1; set @0.0 1; set @0.0 1; set @0.0 1; set @0.0 1; set @0.0 1; set @0.0 1; set @0.0 1; set @0.0 1; set @0.0 1; set @0.0 1; set @0.0 1; set @0.0 1; set @0.0 1; set @0.0 1; set @0.0 1; set @0.0 1; set @0.0 1; set @0.0 1; set @0.0 1; }
reads 0 writes 0 { set @0.0 ((((((1 + 1) + 1) + 1) + 1) + 1) + 1); }|reads 0 writes 0 { set @0.0 ((((((1 + 1) + 1) + 1) + 1) + 1) + 1); }
reads 0 1 2 3 writes 0 2 at 5 0 { set @2.1 (@3.0 min @1.0); }|reads 0 1 2 3 writes 0 2 at 5 0 { set @2.1 (@3.0 min @1.0); }
reads 0 writes 0 { if [0 < 1] { set @0.0 1; set @0.0 2; } else { set @0.0 3; set @0.0 4; if [1 < 2] { set @0.0 5; } else { set @0.0 6; set @0.0 7; set @0.0 8; } } }|reads 0 writes 0 { if [0 < 1] { set @0.0 1; set @0.0 2; } else { set @0.0 3; set @0.0 4; if [1 < 2] { set @0.0 5; } else { set @0.0 6; set @0.0 7; set @0.0 8; } } }
reads 65520 65521 65522 65523 65524 65525 65526 65527 65528 65529 65530 65531 65532 65533 65534 65535 writes 65520 65521 65522 65523 65524 65525 65526 65527 65528 65529 65530 65531 65532 65533 65534 65535 at -1000000 -1000000 { set @65535.255 -9223372036854775808; set @65535.255 -9223372036854775808; set @65535.255 -9223372036854775808; set @65535.255 -9223372036854775808; set @65535.255 -9223372036854775808; set @65535.255 -9223372036854775808; set @65535.255 -9223372036854775808; set @65535.255 -9223372036854775808; set @65535.255 -9223372036854775808; set @65535.255 -9223372036854775808; set @65535.255 -9223372036854775808; set @65535.255 -9223372036854775808; set @65535.255 -9223372036854775808; set @65535.255 -9223372036854775808; set @65535.255 -9223372036854775808; set @65535.255 -9223372036854775808; set @65535.255 -9223372036854775808; set @65535.255 -9223372036854775808; set @65535.255 -9223372036854775808; set @65535.255 -9223372036854775808; set @65535.255 -9223372036854775808; set @65535.255 -9223372036854775808; set @65535.255 -9223372036854775808; set @65535.255 -9223372036854775808; set @65535.255 -9223372036854775808; set @65535.255 -9223372036854775808; set @65535.255 -9223372036854775808; set @65535.255 -9223372036854775808; set @65535.255 -9223372036854775808; set @65535.255 -9223372036854775808; set @65535.255 -9223372036854775808; set @65535.255 -9223372036854775808; }|reads 65520 65521 65522 65523 65524 65525 65526 65527 65528 65529 65530 65531 65532 65533 65534 65535 writes 65520 65521 65522 65523 65524 65525 65526 65527 65528 65529 65530 65531 65532 65533 65534 65535 at -1000000 -1000000 { set @65535.255 -9223372036854775808; set @65535.255 -9223372036854775808; set @65535.255 -9223372036854775808; set @65535.255 -9223372036854775808; set @65535.255 -9223372036854775808; set @65535.255 -9223372036854775808; set @65535.255 -9223372036854775808; set @65535.255 -9223372036854775808; set @65535.255 -9223372036854775808; set @65535.255 -9223372036854775808; set @65535.255 -9223372036854775808; set @65535.255 -9223372036854775808; set @65535.255 -9223372036854775808; set @65535.255 -9223372036854775808; set @65535.255 -9223372036854775808; set @65535.255 -9223372036854775808; set @65535.255 -9223372036854775808; set @65535.255 -9223372036854775808; set @65535.255 -9223372036854775808; set @65535.255 -9223372036854775808; set @65535.255 -9223372036854775808; set @65535.255 -9223372036854775808; set @65535.255 -9223372036854775808; set @65535.255 -9223372036854775808; set @65535.255 -9223372036854775808; set @65535.255 -9223372036854775808; set @65535.255 -9223372036854775808; set @65535.255 -9223372036854775808; set @65535.255 -9223372036854775808; set @65535.255 -9223372036854775808; set @65535.255 -9223372036854775808; set @65535.255 -9223372036854775808; }
reads 0 1 2 3 4 5 6 7 8 9 10 11 12 13 14 15 writes 1 2 3 4 5 6 15 at 1000000 -1000000 { if [@6.0 < 1] { if [@5.0 < 1] { if [@4.0 < 1] { if [@3.0 < 1] { if [@2.0 < 1] { if [@1.0 < 1] { set @15.1 -7; } else { set @1.0 1; set @1.0 2; set @1.0 3; } } else { set @2.0 1; set @2.0 2; set @2.0 3; } } else { set @3.0 1; set @3.0 2; set @3.0 3; } } else { set @4.0 1; set @4.0 2; set @4.0 3; } } else { set @5.0 1; set @5.0 2; set @5.0 3; } } else { set @6.0 1; set @6.0 2; set @6.0 3; set @6.0 4; } }|reads 0 1 2 3 4 5 6 7 8 9 10 11 12 13 14 15 writes 1 2 3 4 5 6 15 at 1000000 -1000000 { if [@6.0 < 1] { if [@5.0 < 1] { if [@4.0 < 1] { if [@3.0 < 1] { if [@2.0 < 1] { if [@1.0 < 1] { set @15.1 -7; } else { set @1.0 1; set @1.0 2; set @1.0 3; } } else { set @2.0 1; set @2.0 2; set @2.0 3; } } else { set @3.0 1; set @3.0 2; set @3.0 3; } } else { set @4.0 1; set @4.0 2; set @4.0 3; } } else { set @5.0 1; set @5.0 2; set @5.0 3; } } else { set @6.0 1; set @6.0 2; set @6.0 3; set @6.0 4; } }";

fn name(cause: TextCause) -> &'static str {
    match cause {
        TextCause::Character => "Character",
        TextCause::Number => "Number",
        TextCause::Expected => "Expected",
        TextCause::NotRead => "NotRead",
        TextCause::Order => "Order",
        TextCause::TooMany => "TooMany",
        TextCause::TooLarge => "TooLarge",
        TextCause::TooDeep => "TooDeep",
    }
}

/// The fault of a text, where it is no action.
fn fault_of(alloc: Global, text: &str) -> Option<TextFault> {
    if text.len() > 4096 {
        return None;
    }
    match parse_action(alloc, text) {
        Err(ParseFault::Text(fault)) => Some(fault),
        Err(ParseFault::Memory) | Ok(_) => None,
    }
}

fn is_refused(alloc: Global, text: &str, place: u32, cause: &str) -> bool {
    match fault_of(alloc, text) {
        Some(fault) => fault.place == place && name(fault.cause) == cause,
        None => false,
    }
}

/// The canonical text of the action that a text writes.
fn printed(alloc: Global, text: &str) -> Result<String, Fail> {
    if text.len() > 4096 {
        return Err(Fail::from("the text is long"));
    }
    let action = parse_action(alloc, text)?;
    let printed = print_action(alloc, &action);
    drop(action);
    Ok(printed?)
}

fn is_printed(alloc: Global, text: &str, wanted: &str) -> Result<bool, Fail> {
    Ok(printed(alloc, text)?.as_str() == wanted)
}

#[test]
fn refuses_each_text_at_its_place(rt: HostRuntime) -> Result<(), Fail> {
    for line in REFUSED.lines() {
        let (cause, rest) = line.split_once(' ').ok_or("no place")?;
        let (place, text) = rest.split_once(' ').ok_or("no text")?;
        let place = place.parse::<u32>()?;
        assert!(rt; is_refused(rt.alloc(), text, place, cause), "{line}");
    }
    Ok(())
}

#[test]
fn reads_and_prints_canonical_texts(rt: HostRuntime) -> Result<(), Fail> {
    for line in ACCEPTED.lines() {
        let (text, wanted) = line.split_once('|').ok_or("no bar")?;
        assert!(rt; is_printed(rt.alloc(), text, wanted)?, "{text}");
        assert!(rt; is_printed(rt.alloc(), wanted, wanted)?, "{wanted}");
    }
    Ok(())
}

/// Puts the canonical text of an action behind what stands there.
fn append(alloc: Global, out: &mut String) -> Result<(), Fail> {
    let action = parse_action(alloc, "reads 1 writes { }")?;
    let done = append_action(&action, out);
    drop(action);
    Ok(done?)
}

#[test]
fn appends_to_a_text(rt: HostRuntime) -> Result<(), Fail> {
    let mut out = String::from_str(rt.alloc(), "submit 1 ")?;
    append(rt.alloc(), &mut out)?;
    assert_eq!(rt; out.as_str(), "submit 1 reads 1 writes { }");
    Ok(())
}
