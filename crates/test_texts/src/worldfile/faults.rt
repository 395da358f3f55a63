//! Each refusal with its path, and which of two faults is told.

use crate::worldfile::lines::{is_line, quoted};
use std::alloc::Global;
use std::process::Abort;
use std::test::Fail;

/// A path and a cause, and a text with that fault, with `'` for each `"`.
const REFUSED: &str = "\
: json|
: json|{
: json|nul
: json|{'attrs':1,}
: json|{} {}
: json|{'attrs':01,'objects':[[5]],'bound':4}
: json|{'attrs':1,'objects':[[5]],'bound':1e999}
: json|{'attrs':1,'objects':[[5]],'bound':4,'rights':[,]}
: json|\u{feff}{'attrs':1,'objects':[[5]],'bound':4}
: kind|[]
: kind|5
: kind|null
: kind|true
: kind|'attrs'
/attrs: kind|{'attrs':'1','objects':[[5]],'bound':4}
/attrs: kind|{'attrs':1.0,'objects':[[5]],'bound':4}
/attrs: kind|{'attrs':1e0,'objects':[[5]],'bound':4}
/attrs: kind|{'attrs':18446744073709551616,'objects':[[5]],'bound':4}
/attrs: kind|{'attrs':null,'objects':[[5]],'bound':4}
/attrs: kind|{'attrs':[1],'objects':[[5]],'bound':4}
/objects: kind|{'attrs':1,'objects':{},'bound':4}
/objects: kind|{'attrs':1,'objects':1,'bound':4}
/objects/0: kind|{'attrs':1,'objects':[5],'bound':4}
/objects/1: kind|{'attrs':1,'objects':[[5],{}],'bound':4}
/objects/1/0: kind|{'attrs':1,'objects':[[5],[5.5]],'bound':4}
/objects/0/0: kind|{'attrs':1,'objects':[[-9223372036854775809]],'bound':4}
/objects/0/1: kind|{'attrs':2,'objects':[[5,'6']],'bound':4}
/bound: kind|{'attrs':1,'objects':[[5]],'bound':null}
/bound: kind|{'attrs':1,'objects':[[5]],'bound':4.0}
/bound: kind|{'attrs':1,'objects':[[5]],'bound':'4'}
/reach: kind|{'attrs':1,'objects':[[5]],'bound':4,'reach':null}
/reach: kind|{'attrs':1,'objects':[[5]],'bound':4,'reach':'5'}
/reach: kind|{'attrs':1,'objects':[[5]],'bound':4,'reach':0.5}
/rights: kind|{'attrs':1,'objects':[[5]],'bound':4,'rights':null}
/rights: kind|{'attrs':1,'objects':[[5]],'bound':4,'rights':{}}
/rights: kind|{'attrs':1,'objects':[[5]],'bound':4,'rights':{'clients':[0,0],'objects':[0,0]}}
/rights: kind|{'attrs':1,'objects':[[5]],'bound':4,'rights':'all'}
/rights: kind|{'attrs':1,'objects':[[5]],'bound':4,'rights':0}
/rights/0: kind|{'attrs':1,'objects':[[5]],'bound':4,'rights':[0]}
/rights/0: kind|{'attrs':1,'objects':[[5]],'bound':4,'rights':[null]}
/rights/0: kind|{'attrs':1,'objects':[[5]],'bound':4,'rights':[[[0,0],[0,0]]]}
/rights/0: kind|{'attrs':1,'objects':[[5]],'bound':4,'rights':['clients']}
/rights/1: kind|{'attrs':1,'objects':[[5]],'bound':4,'rights':[{'clients':[0,0],'objects':[0,0]},[]]}
/rights/0/clients: kind|{'attrs':1,'objects':[[5]],'bound':4,'rights':[{'clients':0,'objects':[0,0]}]}
/rights/0/clients: kind|{'attrs':1,'objects':[[5]],'bound':4,'rights':[{'clients':'0-1','objects':[0,0]}]}
/rights/0/clients: kind|{'attrs':1,'objects':[[5]],'bound':4,'rights':[{'clients':{},'objects':[0,0]}]}
/rights/0/clients: kind|{'attrs':1,'objects':[[5]],'bound':4,'rights':[{'clients':null,'objects':[0,0]}]}
/rights/0/clients/0: kind|{'attrs':1,'objects':[[5]],'bound':4,'rights':[{'clients':['0',0],'objects':[0,0]}]}
/rights/0/clients/0: kind|{'attrs':1,'objects':[[5]],'bound':4,'rights':[{'clients':[0.0,0],'objects':[0,0]}]}
/rights/0/clients/1: kind|{'attrs':1,'objects':[[5]],'bound':4,'rights':[{'clients':[0,null],'objects':[0,0]}]}
/rights/0/clients/1: kind|{'attrs':1,'objects':[[5]],'bound':4,'rights':[{'clients':[0,1.0],'objects':[0,0]}]}
/rights/0/objects: kind|{'attrs':1,'objects':[[5]],'bound':4,'rights':[{'clients':[0,0],'objects':0}]}
/rights/0/objects: kind|{'attrs':1,'objects':[[5]],'bound':4,'rights':[{'clients':[0,0],'objects':true}]}
/rights/0/objects/0: kind|{'attrs':1,'objects':[[5]],'bound':4,'rights':[{'clients':[0,0],'objects':[[0],0]}]}
/rights/0/objects/1: kind|{'attrs':1,'objects':[[5]],'bound':4,'rights':[{'clients':[0,0],'objects':[0,'0']}]}
/results: kind|{'attrs':1,'objects':[[5]],'bound':4,'results':'last'}
/results: kind|{'attrs':1,'objects':[[5]],'bound':4,'results':'First'}
/results: kind|{'attrs':1,'objects':[[5]],'bound':4,'results':'authority '}
/results: kind|{'attrs':1,'objects':[[5]],'bound':4,'results':'firs'}
/results: kind|{'attrs':1,'objects':[[5]],'bound':4,'results':''}
/results: kind|{'attrs':1,'objects':[[5]],'bound':4,'results':null}
/results: kind|{'attrs':1,'objects':[[5]],'bound':4,'results':1}
/results: kind|{'attrs':1,'objects':[[5]],'bound':4,'results':['first']}
/attrs: range|{'attrs':0,'objects':[[5]],'bound':4}
/attrs: range|{'attrs':5,'objects':[[5,5,5,5,5]],'bound':4}
/attrs: range|{'attrs':-1,'objects':[[5]],'bound':4}
/attrs: range|{'attrs':18446744073709551615,'objects':[[5]],'bound':4}
/objects: range|{'attrs':1,'objects':[],'bound':4}
/objects/0: range|{'attrs':1,'objects':[[]],'bound':4}
/objects/0: range|{'attrs':1,'objects':[[5,6]],'bound':4}
/objects/1: range|{'attrs':2,'objects':[[5,6],[7]],'bound':4}
/objects/2: range|{'attrs':4,'objects':[[1,2,3,4],[5,6,7,8],[9,10,11]],'bound':4}
/objects/0/0: range|{'attrs':1,'objects':[[9223372036854775808]],'bound':4}
/objects/1/1: range|{'attrs':2,'objects':[[1,2],[3,18446744073709551615]],'bound':4}
/bound: range|{'attrs':1,'objects':[[5]],'bound':33}
/bound: range|{'attrs':1,'objects':[[5]],'bound':-1}
/bound: range|{'attrs':1,'objects':[[5]],'bound':256}
/reach: range|{'attrs':1,'objects':[[5]],'bound':4,'reach':2000001}
/reach: range|{'attrs':1,'objects':[[5]],'bound':4,'reach':-1}
/reach: range|{'attrs':1,'objects':[[5]],'bound':4,'reach':4294967296}
/rights/0/clients: range|{'attrs':1,'objects':[[5]],'bound':4,'rights':[{'clients':[],'objects':[0,0]}]}
/rights/0/clients: range|{'attrs':1,'objects':[[5]],'bound':4,'rights':[{'clients':[0],'objects':[0,0]}]}
/rights/0/clients: range|{'attrs':1,'objects':[[5]],'bound':4,'rights':[{'clients':[0,1,2],'objects':[0,0]}]}
/rights/0/clients/0: range|{'attrs':1,'objects':[[5]],'bound':4,'rights':[{'clients':[-1,0],'objects':[0,0]}]}
/rights/0/clients/0: range|{'attrs':1,'objects':[[5]],'bound':4,'rights':[{'clients':[65536,65536],'objects':[0,0]}]}
/rights/0/clients/1: range|{'attrs':1,'objects':[[5]],'bound':4,'rights':[{'clients':[0,-1],'objects':[0,0]}]}
/rights/0/clients/1: range|{'attrs':1,'objects':[[5]],'bound':4,'rights':[{'clients':[0,65536],'objects':[0,0]}]}
/rights/0/objects: range|{'attrs':1,'objects':[[5]],'bound':4,'rights':[{'clients':[0,0],'objects':[]}]}
/rights/0/objects: range|{'attrs':1,'objects':[[5]],'bound':4,'rights':[{'clients':[0,0],'objects':[0]}]}
/rights/0/objects: range|{'attrs':1,'objects':[[5]],'bound':4,'rights':[{'clients':[0,0],'objects':[0,0,0]}]}
/rights/0/objects/0: range|{'attrs':1,'objects':[[5]],'bound':4,'rights':[{'clients':[0,0],'objects':[-1,0]}]}
/rights/0/objects/0: range|{'attrs':1,'objects':[[5]],'bound':4,'rights':[{'clients':[0,0],'objects':[65536,65536]}]}
/rights/0/objects/1: range|{'attrs':1,'objects':[[5]],'bound':4,'rights':[{'clients':[0,0],'objects':[0,-1]}]}
/rights/0/objects/1: range|{'attrs':1,'objects':[[5]],'bound':4,'rights':[{'clients':[0,0],'objects':[0,65536]}]}
/attrs: key|{}
/attrs: key|{'objects':[[5]],'bound':4}
/objects: key|{'attrs':1,'bound':4}
/bound: key|{'attrs':1,'objects':[[5]]}
/bound: key|{'attrs':1,'objects':[[5]],'reach':1,'rights':[],'results':'first'}
/x: key|{'attrs':1,'objects':[[5]],'bound':4,'x':1}
/: key|{'attrs':1,'objects':[[5]],'bound':4,'':1}
/Rights: key|{'attrs':1,'objects':[[5]],'bound':4,'Rights':[]}
/clients: key|{'attrs':1,'objects':[[5]],'bound':4,'clients':[{'interest':[],'steps':[]}]}
/schedule: key|{'attrs':1,'objects':[[5]],'bound':4,'schedule':[]}
/rights/0/clients: key|{'attrs':1,'objects':[[5]],'bound':4,'rights':[{}]}
/rights/0/clients: key|{'attrs':1,'objects':[[5]],'bound':4,'rights':[{'objects':[0,0]}]}
/rights/0/objects: key|{'attrs':1,'objects':[[5]],'bound':4,'rights':[{'clients':[0,0]}]}
/rights/0/x: key|{'attrs':1,'objects':[[5]],'bound':4,'rights':[{'clients':[0,0],'objects':[0,0],'x':1}]}
/rights/1/attrs: key|{'attrs':1,'objects':[[5]],'bound':4,'rights':[{'clients':[0,0],'objects':[0,0]},{'attrs':[0,0],'clients':[0,0],'objects':[0,0]}]}
/rights/0/clients/1: order|{'attrs':1,'objects':[[5]],'bound':4,'rights':[{'clients':[1,0],'objects':[0,0]}]}
/rights/0/clients/1: order|{'attrs':1,'objects':[[5]],'bound':4,'rights':[{'clients':[65535,65534],'objects':[0,0]}]}
/rights/0/objects/1: order|{'attrs':1,'objects':[[5],[6]],'bound':4,'rights':[{'clients':[0,0],'objects':[1,0]}]}
/rights/1/objects/1: order|{'attrs':1,'objects':[[5],[6],[7]],'bound':4,'rights':[{'clients':[0,0],'objects':[0,0]},{'clients':[0,0],'objects':[2,1]}]}
/rights/0/objects/0: object|{'attrs':1,'objects':[[5]],'bound':4,'rights':[{'clients':[0,0],'objects':[1,1]}]}
/rights/0/objects/0: object|{'attrs':1,'objects':[[5]],'bound':4,'rights':[{'clients':[0,0],'objects':[65535,65535]}]}
/rights/0/objects/1: object|{'attrs':1,'objects':[[5]],'bound':4,'rights':[{'clients':[0,0],'objects':[0,1]}]}
/rights/0/objects/1: object|{'attrs':1,'objects':[[5],[6]],'bound':4,'rights':[{'clients':[0,0],'objects':[1,65535]}]}
/rights/2/objects/1: object|{'attrs':1,'objects':[[5],[6]],'bound':4,'rights':[{'clients':[0,0],'objects':[0,0]},{'clients':[0,0],'objects':[0,1]},{'clients':[0,0],'objects':[0,2]}]}";

/// The same of texts with two faults, of which the first one counts. The order of the keys in the file is none.
const PAIRS: &str = "\
: json|{'attrs':0,}
: kind|[{'attrs':0}]
/attrs: key|{'x':1}
/objects: key|{'attrs':9,'reach':-1,'x':1}
/bound: key|{'attrs':1,'objects':[],'x':1}
/B: key|{'attrs':1,'objects':[[5]],'bound':4,'b':1,'a':1,'B':1}
/clients: key|{'attrs':1,'objects':[[5]],'bound':4,'schedule':[],'clients':[]}
/x: key|{'attrs':'x','objects':[],'bound':33,'rights':5,'x':1}
/attrs: kind|{'attrs':'x','objects':[],'bound':4}
/attrs: range|{'objects':5,'bound':4,'attrs':0}
/attrs: range|{'bound':'x','attrs':0,'objects':[[5]]}
/objects: range|{'attrs':1,'bound':33,'objects':[]}
/objects/0: range|{'attrs':1,'objects':[['x','y']],'bound':4}
/objects/0/0: kind|{'attrs':1,'objects':[['x'],5],'bound':4}
/objects/1: range|{'attrs':1,'objects':[[5],[]],'bound':33}
/bound: range|{'attrs':1,'objects':[[5]],'bound':33,'reach':-1}
/bound: kind|{'reach':-1,'attrs':1,'objects':[[5]],'bound':null}
/reach: range|{'attrs':1,'objects':[[5]],'bound':4,'reach':-1,'rights':5}
/reach: range|{'rights':[5],'attrs':1,'objects':[[5]],'bound':4,'reach':2000001}
/reach: kind|{'results':'last','attrs':1,'objects':[[5]],'bound':4,'reach':{}}
/rights: kind|{'attrs':1,'objects':[[5]],'bound':4,'rights':5,'results':'last'}
/rights/0/objects/0: object|{'results':'last','attrs':1,'objects':[[5]],'bound':4,'rights':[{'clients':[0,0],'objects':[1,1]}]}
/rights/0: kind|{'attrs':1,'objects':[[5]],'bound':4,'rights':[5,{}]}
/rights/0/clients: key|{'attrs':1,'objects':[[5]],'bound':4,'rights':[{},5]}
/rights/0/clients: key|{'attrs':1,'objects':[[5]],'bound':4,'rights':[{'objects':5,'x':1}]}
/rights/0/objects: key|{'attrs':1,'objects':[[5]],'bound':4,'rights':[{'clients':[1,0],'x':1}]}
/rights/0/x: key|{'attrs':1,'objects':[[5]],'bound':4,'rights':[{'clients':[1,0],'objects':[9,9],'x':1}]}
/rights/0/a: key|{'attrs':1,'objects':[[5]],'bound':4,'rights':[{'clients':[0,0],'objects':[0,0],'b':1,'a':1}]}
/rights/0/clients: kind|{'attrs':1,'objects':[[5]],'bound':4,'rights':[{'objects':5,'clients':5}]}
/rights/0/clients/1: order|{'attrs':1,'objects':[[5]],'bound':4,'rights':[{'objects':[9,9],'clients':[1,0]}]}
/rights/0/clients/1: range|{'attrs':1,'objects':[[5]],'bound':4,'rights':[{'objects':[0],'clients':[1,-1]}]}
/rights/0/clients: range|{'attrs':1,'objects':[[5]],'bound':4,'rights':[{'clients':['x'],'objects':[0,0]}]}
/rights/0/clients: range|{'attrs':1,'objects':[[5]],'bound':4,'rights':[{'clients':[1,0,70000],'objects':[0,0]}]}
/rights/0/clients/0: kind|{'attrs':1,'objects':[[5]],'bound':4,'rights':[{'clients':['x',-1],'objects':[0,0]}]}
/rights/0/clients/0: range|{'attrs':1,'objects':[[5]],'bound':4,'rights':[{'clients':[65536,'x'],'objects':[0,0]}]}
/rights/0/clients/0: range|{'attrs':1,'objects':[[5]],'bound':4,'rights':[{'clients':[65536,0],'objects':[0,0]}]}
/rights/0/clients/1: range|{'attrs':1,'objects':[[5]],'bound':4,'rights':[{'clients':[1,65536],'objects':[1,0]}]}
/rights/0/objects: range|{'attrs':1,'objects':[[5]],'bound':4,'rights':[{'clients':[0,0],'objects':[9]}]}
/rights/0/objects/0: object|{'attrs':1,'objects':[[5]],'bound':4,'rights':[{'clients':[0,0],'objects':[9,'x']}]}
/rights/0/objects/0: object|{'attrs':1,'objects':[[5],[6]],'bound':4,'rights':[{'clients':[0,0],'objects':[2,0]}]}
/rights/0/objects/0: range|{'attrs':1,'objects':[[5],[6]],'bound':4,'rights':[{'clients':[0,0],'objects':[65536,0]}]}
/rights/0/objects/1: range|{'attrs':1,'objects':[[5],[6]],'bound':4,'rights':[{'clients':[0,0],'objects':[1,-1]}]}
/rights/0/objects/1: order|{'attrs':1,'objects':[[5],[6]],'bound':4,'rights':[{'clients':[0,0],'objects':[1,0]},{'clients':[1,0],'objects':[0,0]}]}
/rights/0/objects/1: object|{'attrs':1,'objects':[[5],[6]],'bound':4,'rights':[{'clients':[0,0],'objects':[1,2]},5]}
/rights/1/clients/1: order|{'attrs':1,'objects':[[5]],'bound':4,'rights':[{'clients':[0,1],'objects':[0,0]},{'clients':[1,0],'objects':[1,1]}]}";

/// The same of texts with a key twice, of which the last one counts.
const DOUBLED: &str = "\
/attrs: range|{'attrs':1,'objects':[[5]],'bound':4,'attrs':9}
/rights: kind|{'attrs':1,'objects':[[5]],'bound':4,'rights':[],'rights':null}
/results: kind|{'attrs':1,'objects':[[5]],'bound':4,'results':'first','results':'last'}
/rights/0/clients/1: order|{'attrs':1,'objects':[[5]],'bound':4,'rights':[{'clients':[0,1],'objects':[0,0],'clients':[1,0]}]}
/x: key|{'attrs':1,'objects':[[5]],'bound':4,'x':1,'x':2}";

/// Whether the text of a line of the tables is refused as it says.
fn is_refused(alloc: Global, fault: &str, text: &str) -> Result<bool, Fail> {
    let bytes = quoted(alloc, text)?;
    let printed = format!(in alloc; "scenario: {fault}\n")?;
    is_line(alloc, &bytes, &printed)
}

/// Whether a text is no JSON without its last byte, if it has one.
fn is_whole(alloc: Global, text: &str) -> Result<bool, Fail> {
    let bytes = quoted(alloc, text)?;
    let count = bytes.len().saturating_sub(1);
    is_line(alloc, &bytes[..count], "scenario: : json\n")
}

fn holds(alloc: Global, line: &str) -> Result<bool, Fail> {
    let (fault, text) = line.split_once('|').ok_or("no bar")?;
    Ok(is_refused(alloc, fault, text)? && is_whole(alloc, text)?)
}

/// Each text of a table is refused as the table says, and without its last byte it is no JSON.
fn are_refused(rt: &impl Abort, alloc: Global, table: &str) -> Result<(), Fail> {
    for line in table.lines() {
        assert!(rt; holds(alloc, line)?, "{line}");
    }
    Ok(())
}

#[test]
fn refuses_faulty_files(rt: HostRuntime) -> Result<(), Fail> {
    are_refused(&rt, rt.alloc(), REFUSED)
}

#[test]
fn refuses_the_first_of_two_faults(rt: HostRuntime) -> Result<(), Fail> {
    are_refused(&rt, rt.alloc(), PAIRS)
}

#[test]
fn the_last_of_two_keys_counts(rt: HostRuntime) -> Result<(), Fail> {
    are_refused(&rt, rt.alloc(), DOUBLED)
}

#[test]
fn refuses_what_is_no_text(rt: HostRuntime) -> Result<(), Fail> {
    for bytes in [[0xFF, 0x7B], [b'"', 0x80], [0xC3, 0x28]] {
        assert!(rt; is_line(rt.alloc(), &bytes, "scenario: : json\n")?);
    }
    Ok(())
}
