//! Tests of scenario files: each refusal with its path, and what a file means.
ghost use Rattle.std.specs.Prelude.{IfOk};
ghost use Rattle.sv_scenario.specs.Limits.{IsGoodScenario};

use std::alloc::Global;
use std::process::Abort;
use std::test::Fail;
use sv_scenario::{
    Plan, ReadFault, Scenario, Step, Turn, append_fault_line, read_scenario, sessions_of,
    sessions_of_plan,
};
use sv_world::{ObjectId, Shape};

/// A path and a cause, and a text with that fault, with `'` for each `"`.
const REFUSED: &str = "\
: json|
: json|{
: json|{'attrs':1,}
: json|{} {}
: json|nul
: json|[1 2]
: json|{'attrs':01}
: json|{'attrs':1e999}
: json|[1e999]
: json|{'attrs':+1}
: json|{'attrs':.5}
: json|'a
: json|{'a'}
: json|[1,]
: json|\u{feff}{'attrs':1,'objects':[[5]],'bound':4,'clients':[{'interest':[],'steps':[]}]}
: kind|[]
: kind|5
: kind|null
: kind|true
: kind|'attrs'
/attrs: kind|{'attrs':'1','objects':[[5]],'bound':4,'clients':[{'interest':[],'steps':[]}]}
/attrs: kind|{'attrs':1.0,'objects':[[5]],'bound':4,'clients':[{'interest':[],'steps':[]}]}
/attrs: kind|{'attrs':1e2,'objects':[[5]],'bound':4,'clients':[{'interest':[],'steps':[]}]}
/attrs: kind|{'attrs':-0,'objects':[[5]],'bound':4,'clients':[{'interest':[],'steps':[]}]}
/attrs: kind|{'attrs':18446744073709551616,'objects':[[5]],'bound':4,'clients':[{'interest':[],'steps':[]}]}
/attrs: kind|{'attrs':null,'objects':[[5]],'bound':4,'clients':[{'interest':[],'steps':[]}]}
/attrs: kind|{'attrs':[1],'objects':[[5]],'bound':4,'clients':[{'interest':[],'steps':[]}]}
/attrs: kind|{'attrs':{},'objects':[[5]],'bound':4,'clients':[{'interest':[],'steps':[]}]}
/attrs: kind|{'attrs':true,'objects':[[5]],'bound':4,'clients':[{'interest':[],'steps':[]}]}
/objects: kind|{'attrs':1,'objects':{},'bound':4,'clients':[{'interest':[],'steps':[]}]}
/objects: kind|{'attrs':1,'objects':'x','bound':4,'clients':[{'interest':[],'steps':[]}]}
/objects/0: kind|{'attrs':1,'objects':[5],'bound':4,'clients':[{'interest':[],'steps':[]}]}
/objects/1/0: kind|{'attrs':1,'objects':[[5],[5.5]],'bound':4,'clients':[{'interest':[],'steps':[]}]}
/objects/0/0: kind|{'attrs':1,'objects':[[-9223372036854775809]],'bound':4,'clients':[{'interest':[],'steps':[]}]}
/objects/0/0: kind|{'attrs':1,'objects':[[null]],'bound':4,'clients':[{'interest':[],'steps':[]}]}
/bound: kind|{'attrs':1,'objects':[[5]],'bound':null,'clients':[{'interest':[],'steps':[]}]}
/bound: kind|{'attrs':1,'objects':[[5]],'bound':4.0,'clients':[{'interest':[],'steps':[]}]}
/reach: kind|{'attrs':1,'objects':[[5]],'bound':4,'reach':null,'clients':[{'interest':[],'steps':[]}]}
/reach: kind|{'attrs':1,'objects':[[5]],'bound':4,'reach':'5','clients':[{'interest':[],'steps':[]}]}
/clients: kind|{'attrs':1,'objects':[[5]],'bound':4,'clients':{}}
/clients/0: kind|{'attrs':1,'objects':[[5]],'bound':4,'clients':[5]}
/clients/1: kind|{'attrs':1,'objects':[[5]],'bound':4,'clients':[{'interest':[],'steps':[]},[]]}
/clients/0/interest: kind|{'attrs':1,'objects':[[5]],'bound':4,'clients':[{'interest':0,'steps':[]}]}
/clients/0/interest/0: kind|{'attrs':1,'objects':[[5]],'bound':4,'clients':[{'interest':['0'],'steps':[]}]}
/clients/0/interest/0: kind|{'attrs':1,'objects':[[5]],'bound':4,'clients':[{'interest':[0.0],'steps':[]}]}
/clients/0/steps: kind|{'attrs':1,'objects':[[5]],'bound':4,'clients':[{'interest':[],'steps':'sync'}]}
/clients/0/steps/0: kind|{'attrs':1,'objects':[[5]],'bound':4,'clients':[{'interest':[],'steps':[5]}]}
/clients/0/steps/0: kind|{'attrs':1,'objects':[[5]],'bound':4,'clients':[{'interest':[],'steps':[null]}]}
/clients/0/steps/0: kind|{'attrs':1,'objects':[[5]],'bound':4,'clients':[{'interest':[],'steps':['wait']}]}
/clients/0/steps/0: kind|{'attrs':1,'objects':[[5]],'bound':4,'clients':[{'interest':[],'steps':['Poll']}]}
/clients/0/steps/0: kind|{'attrs':1,'objects':[[5]],'bound':4,'clients':[{'interest':[],'steps':['']}]}
/clients/0/steps/0: kind|{'attrs':1,'objects':[[5]],'bound':4,'clients':[{'interest':[],'steps':[[]]}]}
/clients/0/steps/0: kind|{'attrs':1,'objects':[[5]],'bound':4,'clients':[{'interest':[],'steps':[{}]}]}
/clients/0/steps/0: kind|{'attrs':1,'objects':[[5]],'bound':4,'clients':[{'interest':[],'steps':[{'x':1}]}]}
/clients/0/steps/0: kind|{'attrs':1,'objects':[[5]],'bound':4,'clients':[{'interest':[],'steps':[{'act':'reads 0 writes { }','show':[0]}]}]}
/clients/0/steps/0: kind|{'attrs':1,'objects':[[5]],'bound':4,'clients':[{'interest':[],'steps':[{'act':'reads 0 writes { }','x':1}]}]}
/clients/0/steps/0/act: kind|{'attrs':1,'objects':[[5]],'bound':4,'clients':[{'interest':[],'steps':[{'act':5}]}]}
/clients/0/steps/0/act: kind|{'attrs':1,'objects':[[5]],'bound':4,'clients':[{'interest':[],'steps':[{'act':null}]}]}
/clients/0/steps/0/act: kind|{'attrs':1,'objects':[[5]],'bound':4,'clients':[{'interest':[],'steps':[{'act':['reads 0 writes { }']}]}]}
/clients/0/steps/0/show: kind|{'attrs':1,'objects':[[5]],'bound':4,'clients':[{'interest':[],'steps':[{'show':0}]}]}
/clients/0/steps/0/show: kind|{'attrs':1,'objects':[[5]],'bound':4,'clients':[{'interest':[],'steps':[{'show':'0'}]}]}
/clients/0/steps/0/show: kind|{'attrs':1,'objects':[[5]],'bound':4,'clients':[{'interest':[],'steps':[{'show':{}}]}]}
/clients/0/steps/0/show/1: kind|{'attrs':1,'objects':[[5]],'bound':4,'clients':[{'interest':[],'steps':[{'show':[0,0.5]}]}]}
/clients/0/steps/0: kind|{'attrs':1,'objects':[[5]],'bound':4,'clients':[{'interest':[],'steps':['observe']}]}
/clients/0/steps/0: kind|{'attrs':1,'objects':[[5]],'bound':4,'clients':[{'interest':[],'steps':[{'observe':[0],'show':[0]}]}]}
/clients/0/steps/0: kind|{'attrs':1,'objects':[[5]],'bound':4,'clients':[{'interest':[],'steps':[{'observe':[0],'wait':0}]}]}
/clients/0/steps/0/observe: kind|{'attrs':1,'objects':[[5]],'bound':4,'clients':[{'interest':[],'steps':[{'observe':0}]}]}
/clients/0/steps/0/observe: kind|{'attrs':1,'objects':[[5]],'bound':4,'clients':[{'interest':[],'steps':[{'observe':'0'}]}]}
/clients/0/steps/0/observe: kind|{'attrs':1,'objects':[[5]],'bound':4,'clients':[{'interest':[],'steps':[{'observe':{}}]}]}
/clients/0/steps/0/observe: kind|{'attrs':1,'objects':[[5]],'bound':4,'clients':[{'interest':[],'steps':[{'observe':null}]}]}
/clients/0/steps/0/observe/0: kind|{'attrs':1,'objects':[[5]],'bound':4,'clients':[{'interest':[],'steps':[{'observe':['0']}]}]}
/clients/0/steps/0/observe/1: kind|{'attrs':1,'objects':[[5]],'bound':4,'clients':[{'interest':[],'steps':[{'observe':[0,0.5]}]}]}
/schedule: kind|{'attrs':1,'objects':[[5]],'bound':4,'clients':[{'interest':[],'steps':[]}],'schedule':null}
/schedule: kind|{'attrs':1,'objects':[[5]],'bound':4,'clients':[{'interest':[],'steps':[]}],'schedule':'c0'}
/schedule/0: kind|{'attrs':1,'objects':[[5]],'bound':4,'clients':[{'interest':[],'steps':[]}],'schedule':[5]}
/schedule/0: kind|{'attrs':1,'objects':[[5]],'bound':4,'clients':[{'interest':[],'steps':[]}],'schedule':[null]}
/schedule/0: kind|{'attrs':1,'objects':[[5]],'bound':4,'clients':[{'interest':[],'steps':[]}],'schedule':['']}
/schedule/0: kind|{'attrs':1,'objects':[[5]],'bound':4,'clients':[{'interest':[],'steps':[]}],'schedule':['c']}
/schedule/0: kind|{'attrs':1,'objects':[[5]],'bound':4,'clients':[{'interest':[],'steps':[]}],'schedule':['c00']}
/schedule/0: kind|{'attrs':1,'objects':[[5]],'bound':4,'clients':[{'interest':[],'steps':[]}],'schedule':['c01']}
/schedule/0: kind|{'attrs':1,'objects':[[5]],'bound':4,'clients':[{'interest':[],'steps':[]}],'schedule':['c-0']}
/schedule/0: kind|{'attrs':1,'objects':[[5]],'bound':4,'clients':[{'interest':[],'steps':[]}],'schedule':['c+0']}
/schedule/0: kind|{'attrs':1,'objects':[[5]],'bound':4,'clients':[{'interest':[],'steps':[]}],'schedule':['c0 ']}
/schedule/0: kind|{'attrs':1,'objects':[[5]],'bound':4,'clients':[{'interest':[],'steps':[]}],'schedule':['x0']}
/schedule/0: kind|{'attrs':1,'objects':[[5]],'bound':4,'clients':[{'interest':[],'steps':[]}],'schedule':['C0']}
/schedule/0: kind|{'attrs':1,'objects':[[5]],'bound':4,'clients':[{'interest':[],'steps':[]}],'schedule':['c1']}
/schedule/0: kind|{'attrs':1,'objects':[[5]],'bound':4,'clients':[{'interest':[],'steps':[]}],'schedule':['s1']}
/schedule/0: kind|{'attrs':1,'objects':[[5]],'bound':4,'clients':[{'interest':[],'steps':[]}],'schedule':['t1']}
/schedule/0: kind|{'attrs':1,'objects':[[5]],'bound':4,'clients':[{'interest':[],'steps':[]}],'schedule':['c18446744073709551616']}
/schedule/0: kind|{'attrs':1,'objects':[[5]],'bound':4,'clients':[{'interest':[],'steps':[]}],'schedule':['s\u{e9}']}
/schedule/0: kind|{'attrs':1,'objects':[[5]],'bound':4,'clients':[{'interest':[],'steps':[]}],'schedule':[['c0']]}
/schedule/2: kind|{'attrs':1,'objects':[[5]],'bound':4,'clients':[{'interest':[],'steps':['cut']}],'schedule':['c0','s0','s2']}
/schedule/1: kind|{'attrs':1,'objects':[[5]],'bound':4,'clients':[{'interest':[],'steps':['cut']}],'schedule':['s1','s01']}
/attrs: range|{'attrs':0,'objects':[[5]],'bound':4,'clients':[{'interest':[],'steps':[]}]}
/attrs: range|{'attrs':5,'objects':[[5]],'bound':4,'clients':[{'interest':[],'steps':[]}]}
/attrs: range|{'attrs':-1,'objects':[[5]],'bound':4,'clients':[{'interest':[],'steps':[]}]}
/attrs: range|{'attrs':18446744073709551615,'objects':[[5]],'bound':4,'clients':[{'interest':[],'steps':[]}]}
/attrs: range|{'attrs':-9223372036854775808,'objects':[[5]],'bound':4,'clients':[{'interest':[],'steps':[]}]}
/objects: range|{'attrs':1,'objects':[],'bound':4,'clients':[{'interest':[],'steps':[]}]}
/objects/0: range|{'attrs':1,'objects':[[]],'bound':4,'clients':[{'interest':[],'steps':[]}]}
/objects/0: range|{'attrs':1,'objects':[[5,6]],'bound':4,'clients':[{'interest':[],'steps':[]}]}
/objects/1: range|{'attrs':2,'objects':[[5,6],[7]],'bound':4,'clients':[{'interest':[],'steps':[]}]}
/objects/0/0: range|{'attrs':1,'objects':[[9223372036854775808]],'bound':4,'clients':[{'interest':[],'steps':[]}]}
/objects/0/1: range|{'attrs':2,'objects':[[1,18446744073709551615]],'bound':4,'clients':[{'interest':[],'steps':[]}]}
/bound: range|{'attrs':1,'objects':[[5]],'bound':33,'clients':[{'interest':[],'steps':[]}]}
/bound: range|{'attrs':1,'objects':[[5]],'bound':-1,'clients':[{'interest':[],'steps':[]}]}
/reach: range|{'attrs':1,'objects':[[5]],'bound':4,'reach':2000001,'clients':[{'interest':[],'steps':[]}]}
/reach: range|{'attrs':1,'objects':[[5]],'bound':4,'reach':-1,'clients':[{'interest':[],'steps':[]}]}
/reach: range|{'attrs':1,'objects':[[5]],'bound':4,'reach':18446744073709551615,'clients':[{'interest':[],'steps':[]}]}
/clients: range|{'attrs':1,'objects':[[5]],'bound':4,'clients':[]}
/clients/0/interest/0: range|{'attrs':1,'objects':[[5]],'bound':4,'clients':[{'interest':[-1],'steps':[]}]}
/clients/0/interest/0: range|{'attrs':1,'objects':[[5]],'bound':4,'clients':[{'interest':[65536],'steps':[]}]}
/clients/0/interest/0: range|{'attrs':1,'objects':[[5]],'bound':4,'clients':[{'interest':[9223372036854775808],'steps':[]}]}
/clients/0/steps/0/show: range|{'attrs':1,'objects':[[5]],'bound':4,'clients':[{'interest':[],'steps':[{'show':[]}]}]}
/clients/0/steps/0/show/0: range|{'attrs':1,'objects':[[5]],'bound':4,'clients':[{'interest':[],'steps':[{'show':[-1]}]}]}
/clients/0/steps/0/show/1: range|{'attrs':1,'objects':[[5]],'bound':4,'clients':[{'interest':[],'steps':[{'show':[0,65536]}]}]}
/clients/0/steps/0/observe: range|{'attrs':1,'objects':[[5]],'bound':4,'clients':[{'interest':[],'steps':[{'observe':[]}]}]}
/clients/0/steps/0/observe/0: range|{'attrs':1,'objects':[[5]],'bound':4,'clients':[{'interest':[],'steps':[{'observe':[-1]}]}]}
/clients/0/steps/0/observe/1: range|{'attrs':1,'objects':[[5]],'bound':4,'clients':[{'interest':[],'steps':[{'observe':[0,65536]}]}]}
/attrs: key|{}
/attrs: key|{'objects':[[5]],'bound':4,'clients':[]}
/objects: key|{'attrs':1,'bound':4,'clients':[]}
/bound: key|{'attrs':1,'objects':[[5]],'clients':[]}
/clients: key|{'attrs':1,'objects':[[5]],'bound':4}
/bound: key|{'attrs':1,'objects':[[5]]}
/attrs: key|{'x':1}
/clients: key|{'attrs':1,'objects':[[5]],'bound':4,'x':1}
/x: key|{'attrs':1,'objects':[[5]],'bound':4,'clients':[{'interest':[],'steps':[]}],'x':1}
/: key|{'attrs':1,'objects':[[5]],'bound':4,'clients':[{'interest':[],'steps':[]}],'':1}
/B: key|{'attrs':1,'objects':[[5]],'bound':4,'clients':[{'interest':[],'steps':[]}],'b':1,'a':1,'B':1}
/a/b: key|{'attrs':1,'objects':[[5]],'bound':4,'clients':[{'interest':[],'steps':[]}],'a/b':1}
/Attrs: key|{'attrs':1,'objects':[[5]],'bound':4,'clients':[{'interest':[],'steps':[]}],'Attrs':1}
/atts: key|{'attrs':1,'objects':[[5]],'bound':4,'clients':[{'interest':[],'steps':[]}],'zz':1,'atts':1}
/clients/0/interest: key|{'attrs':1,'objects':[[5]],'bound':4,'clients':[{}]}
/clients/0/interest: key|{'attrs':1,'objects':[[5]],'bound':4,'clients':[{'steps':[]}]}
/clients/0/steps: key|{'attrs':1,'objects':[[5]],'bound':4,'clients':[{'interest':[]}]}
/clients/0/x: key|{'attrs':1,'objects':[[5]],'bound':4,'clients':[{'interest':[],'steps':[],'x':1}]}
/clients/1/schedule: key|{'attrs':1,'objects':[[5]],'bound':4,'clients':[{'interest':[],'steps':[]},{'interest':[],'steps':[],'schedule':[]}]}
/clients/0/interest: key|{'attrs':1,'objects':[[5]],'bound':4,'clients':[{'a':1}]}
/clients/0/interest/1: order|{'attrs':1,'objects':[[5]],'bound':4,'clients':[{'interest':[0,0],'steps':[]}]}
/clients/0/interest/1: order|{'attrs':1,'objects':[[5],[6]],'bound':4,'clients':[{'interest':[1,0],'steps':[]}]}
/clients/0/interest/2: order|{'attrs':1,'objects':[[5],[6]],'bound':4,'clients':[{'interest':[0,1,1],'steps':[]}]}
/clients/1/interest/1: order|{'attrs':1,'objects':[[5]],'bound':4,'clients':[{'interest':[0],'steps':[]},{'interest':[0,0],'steps':[]}]}
/clients/0/steps/0/observe/1: order|{'attrs':1,'objects':[[5]],'bound':4,'clients':[{'interest':[],'steps':[{'observe':[0,0]}]}]}
/clients/0/steps/0/observe/1: order|{'attrs':1,'objects':[[5],[6]],'bound':4,'clients':[{'interest':[],'steps':[{'observe':[1,0]}]}]}
/clients/0/steps/1/observe/2: order|{'attrs':1,'objects':[[5],[6]],'bound':4,'clients':[{'interest':[],'steps':['sync',{'observe':[0,1,1]}]}]}
/clients/0/interest/0: object|{'attrs':1,'objects':[[5]],'bound':4,'clients':[{'interest':[1],'steps':[]}]}
/clients/0/interest/0: object|{'attrs':1,'objects':[[5]],'bound':4,'clients':[{'interest':[65535],'steps':[]}]}
/clients/0/interest/1: object|{'attrs':1,'objects':[[5],[6]],'bound':4,'clients':[{'interest':[0,2],'steps':[]}]}
/clients/0/steps/0/show/0: object|{'attrs':1,'objects':[[5]],'bound':4,'clients':[{'interest':[],'steps':[{'show':[1]}]}]}
/clients/0/steps/0/show/2: object|{'attrs':1,'objects':[[5],[6]],'bound':4,'clients':[{'interest':[],'steps':[{'show':[1,0,65535]}]}]}
/clients/0/steps/0/observe/0: object|{'attrs':1,'objects':[[5]],'bound':4,'clients':[{'interest':[],'steps':[{'observe':[1]}]}]}
/clients/0/steps/0/observe/0: object|{'attrs':1,'objects':[[5]],'bound':4,'clients':[{'interest':[],'steps':[{'observe':[65535]}]}]}
/clients/0/steps/0/observe/1: object|{'attrs':1,'objects':[[5],[6]],'bound':4,'clients':[{'interest':[],'steps':[{'observe':[0,2]}]}]}
/clients/0/steps/0: last|{'attrs':1,'objects':[[5]],'bound':4,'clients':[{'interest':[],'steps':['quit','poll']}]}
/clients/0/steps/0: last|{'attrs':1,'objects':[[5]],'bound':4,'clients':[{'interest':[],'steps':['quit','quit']}]}
/clients/0/steps/1: last|{'attrs':1,'objects':[[5]],'bound':4,'clients':[{'interest':[],'steps':['sync','quit','sync']}]}
/clients/0/steps/0: last|{'attrs':1,'objects':[[5]],'bound':4,'clients':[{'interest':[],'steps':['quit',5]}]}
/clients/1/steps/0: last|{'attrs':1,'objects':[[5]],'bound':4,'clients':[{'interest':[],'steps':['quit']},{'interest':[],'steps':['quit','cut']}]}
/clients/0/steps/0/act: text 0 3|{'attrs':1,'objects':[[5]],'bound':4,'clients':[{'interest':[],'steps':[{'act':''}]}]}
/clients/0/steps/0/act: text 15 4|{'attrs':1,'objects':[[5]],'bound':4,'clients':[{'interest':[],'steps':[{'act':'reads 0 writes 1 { }'}]}]}
/clients/0/steps/0/act: text 44 6|{'attrs':1,'objects':[[5]],'bound':4,'clients':[{'interest':[],'steps':[{'act':'reads 0 1 2 3 4 5 6 7 8 9 10 11 12 13 14 15 16 writes { }'}]}]}
/clients/0/steps/0/act: text 34 3|{'attrs':1,'objects':[[5]],'bound':4,'clients':[{'interest':[],'steps':[{'act':'reads 0 writes 0 { set @0.0 (@0.0 -1); }'}]}]}
/clients/0/steps/0/act: text 20 2|{'attrs':1,'objects':[[5]],'bound':4,'clients':[{'interest':[],'steps':[{'act':'reads 0 writes 0 at 1000001 0 { }'}]}]}
/clients/0/steps/0/act: text 0 1|{'attrs':1,'objects':[[5]],'bound':4,'clients':[{'interest':[],'steps':[{'act':'#'}]}]}
/clients/0/steps/0/act: text 8 5|{'attrs':1,'objects':[[5]],'bound':4,'clients':[{'interest':[],'steps':[{'act':'reads 1 0 writes { }'}]}]}
/clients/0/steps/1/act: text 50 8|{'attrs':1,'objects':[[5]],'bound':4,'clients':[{'interest':[],'steps':['sync',{'act':'reads 0 writes 0 { if not not not not not not not not [1 < 1] { } }'}]}]}
/clients/0/steps/0/act: action 4|{'attrs':1,'objects':[[5]],'bound':4,'clients':[{'interest':[],'steps':[{'act':'reads 1 writes { }'}]}]}
/clients/0/steps/0/act: action 8|{'attrs':1,'objects':[[5]],'bound':4,'clients':[{'interest':[],'steps':[{'act':'reads 0 writes 0 { set @0.1 1; }'}]}]}
/clients/0/steps/0/act: action 7|{'attrs':1,'objects':[[5],[6]],'bound':4,'clients':[{'interest':[],'steps':[{'act':'reads 0 1 writes 1 { set @0.0 1; }'}]}]}
/clients/0/steps/1/act: action 4|{'attrs':1,'objects':[[5]],'bound':4,'clients':[{'interest':[],'steps':[{'act':'reads 0 writes { }'},{'act':'reads 0 65535 writes { }'}]}]}
/clients/0/steps/0/act: action 4|{'attrs':1,'objects':[[5],[6]],'bound':4,'clients':[{'interest':[],'steps':[{'act':'reads 2 writes 2 { set @2.9 1; }'}]}]}";

/// The same of texts with two faults, of which the first one counts.
const PAIRS: &str = "\
/attrs: kind|{'attrs':'x','objects':[],'bound':4,'clients':[{'interest':[],'steps':[]}]}
/attrs: range|{'attrs':0,'objects':[[5]],'bound':'x','clients':[{'interest':[],'steps':[]}]}
/objects/0: range|{'attrs':1,'objects':[['x','y']],'bound':4,'clients':[{'interest':[],'steps':[]}]}
/clients/0/interest/0: range|{'attrs':1,'objects':[[5]],'bound':4,'clients':[{'interest':[-1,'x'],'steps':[]}]}
/x: key|{'attrs':'x','objects':[[5]],'bound':4,'clients':[{'interest':[],'steps':[]}],'x':1}
/clients/0/steps: key|{'attrs':1,'objects':[[5]],'bound':4,'clients':[{'interest':5}]}
/clients/0/interest/1: order|{'attrs':1,'objects':[[5]],'bound':4,'clients':[{'interest':[0,0,'x'],'steps':[]}]}
/clients/0/interest/0: kind|{'attrs':1,'objects':[[5]],'bound':4,'clients':[{'interest':['x',0,0],'steps':[]}]}
/clients/0/interest/0: kind|{'attrs':1,'objects':[[5]],'bound':4,'clients':[{'interest':['x',9],'steps':[]}]}
/clients/0/interest/0: object|{'attrs':1,'objects':[[5]],'bound':4,'clients':[{'interest':[9,'x'],'steps':[]}]}
/clients/0/steps/0/show/0: object|{'attrs':1,'objects':[[5]],'bound':4,'clients':[{'interest':[],'steps':[{'show':[9,'x']}]}]}
/clients/0/steps/0/observe/0: kind|{'attrs':1,'objects':[[5]],'bound':4,'clients':[{'interest':[],'steps':[{'observe':['x',9]}]}]}
/clients/0/steps/0/observe/1: order|{'attrs':1,'objects':[[5]],'bound':4,'clients':[{'interest':[],'steps':[{'observe':[0,0,70000]}]}]}
/clients/0/steps/0/observe/1: order|{'attrs':1,'objects':[[5],[6]],'bound':4,'clients':[{'interest':[],'steps':[{'observe':[1,0,9]}]}]}
/clients/0/steps/0/observe/0: object|{'attrs':1,'objects':[[5]],'bound':4,'clients':[{'interest':[],'steps':[{'observe':[9,0]}]}]}
/clients/0/steps/0/observe/0: range|{'attrs':1,'objects':[[5]],'bound':4,'clients':[{'interest':[],'steps':[{'observe':[65536,0]}]}]}
/clients/0/steps/0/observe: range|{'attrs':1,'objects':[[5]],'bound':4,'clients':[{'interest':[],'steps':[{'observe':[]},{'act':''}]}]}
/clients/0/steps/0/show: range|{'attrs':1,'objects':[[5]],'bound':4,'clients':[{'interest':[],'steps':[{'show':[]},{'observe':[]}]}]}
/clients/0/steps/0/observe/1: order|{'attrs':1,'objects':[[5]],'bound':4,'clients':[{'interest':[],'steps':[{'observe':[0,0]},'quit','poll']}]}
/clients/0/steps/0: kind|{'attrs':1,'objects':[[5]],'bound':4,'clients':[{'interest':[],'steps':[5,'quit','poll']}]}
/clients/0/steps/0: kind|{'attrs':1,'objects':[[5]],'bound':4,'clients':[{'interest':[],'steps':[5,{'act':''}]}]}
/clients/0/steps/0/act: text 0 3|{'attrs':1,'objects':[[5]],'bound':4,'clients':[{'interest':[],'steps':[{'act':''},5]}]}
/clients/0/steps/0: kind|{'attrs':1,'objects':[[5]],'bound':4,'clients':[{'interest':[],'steps':[5,{'act':'reads 1 writes { }'}]}]}
/clients/0/steps/0/act: action 4|{'attrs':1,'objects':[[5]],'bound':4,'clients':[{'interest':[],'steps':[{'act':'reads 1 writes { }'},5]}]}
/clients/0/steps: key|{'attrs':1,'objects':[[5]],'bound':4,'clients':[{'interest':[70000]}]}
/clients: key|{'attrs':0,'objects':[],'bound':99}
/clients/0/interest/1: order|{'attrs':1,'objects':[[5]],'bound':4,'clients':[{'interest':[0,0,70000],'steps':[]}]}
/clients/0/interest/1: range|{'attrs':1,'objects':[[5]],'bound':4,'clients':[{'interest':[0,-1],'steps':[]}]}
/clients/0/interest/1: range|{'attrs':1,'objects':[[5]],'bound':4,'clients':[{'interest':[0,65536,0],'steps':[]}]}
/clients/0/interest/0: object|{'attrs':1,'objects':[[5]],'bound':4,'clients':[{'interest':[1,65536],'steps':[]}]}
/clients/0/interest/0: range|{'attrs':1,'objects':[[5]],'bound':4,'clients':[{'interest':[65536,1],'steps':[]}]}
/reach: range|{'attrs':1,'objects':[[5]],'bound':4,'reach':-1,'clients':[{'interest':[1],'steps':[]}]}
/reach: range|{'attrs':1,'objects':[[5]],'bound':4,'reach':2000001,'clients':[{'interest':[],'steps':['quit','poll']}]}
/clients/0/steps/0: last|{'attrs':1,'objects':[[5]],'bound':4,'clients':[{'interest':[],'steps':['quit','poll']},{'interest':[65536],'steps':[]}]}
/clients/0/steps/0/act: text 0 3|{'attrs':1,'objects':[[5]],'bound':4,'clients':[{'interest':[],'steps':[{'act':''},{'show':[]}]}]}
/clients/0/steps/0/show: range|{'attrs':1,'objects':[[5]],'bound':4,'clients':[{'interest':[],'steps':[{'show':[]},{'act':''}]}]}
/clients/0/steps/0/act: action 4|{'attrs':1,'objects':[[5]],'bound':4,'clients':[{'interest':[],'steps':[{'act':'reads 1 writes { }'},{'show':[]}]}]}
/clients/0/steps/0/show: range|{'attrs':1,'objects':[[5]],'bound':4,'clients':[{'interest':[],'steps':[{'show':[]},{'act':'reads 1 writes { }'}]}]}
/reach: range|{'attrs':1,'objects':[[5]],'bound':4,'reach':2000001,'clients':[]}
/reach: range|{'attrs':1,'objects':[[5]],'bound':4,'clients':[5],'reach':2000001}
/clients: range|{'attrs':1,'objects':[[5]],'bound':4,'clients':[],'schedule':5}
/clients/0/x: key|{'attrs':1,'objects':[[5]],'bound':4,'clients':[{'interest':[0,0],'steps':[],'x':1}]}
/clients/0/x: key|{'attrs':1,'objects':[[5]],'bound':4,'clients':[{'interest':[9],'steps':[],'x':1}]}
/clients/0/x: key|{'attrs':1,'objects':[[5]],'bound':4,'clients':[{'interest':[],'steps':['quit','poll'],'x':1}]}
/clients/0/x: key|{'attrs':1,'objects':[[5]],'bound':4,'clients':[{'interest':[],'steps':[{'act':''}],'x':1}]}
/clients/0/x: key|{'attrs':1,'objects':[[5]],'bound':4,'clients':[{'interest':[],'steps':[{'act':'reads 1 writes { }'}],'x':1}]}
/clients/0/interest/1: order|{'attrs':1,'objects':[[5]],'bound':4,'clients':[{'interest':[0,0],'steps':[]},{}]}
/clients/0/interest/0: object|{'attrs':1,'objects':[[5]],'bound':4,'clients':[{'interest':[9],'steps':[]},{}]}
/clients/0/steps/0: last|{'attrs':1,'objects':[[5]],'bound':4,'clients':[{'interest':[],'steps':['quit','poll']},{}]}
/clients/0/steps/0/act: text 0 3|{'attrs':1,'objects':[[5]],'bound':4,'clients':[{'interest':[],'steps':[{'act':''}]},{}]}
/clients/0/steps/0/act: action 4|{'attrs':1,'objects':[[5]],'bound':4,'clients':[{'interest':[],'steps':[{'act':'reads 1 writes { }'}]},{}]}
/clients/0/interest/1: order|{'attrs':1,'objects':[[5]],'bound':4,'clients':[{'interest':[0,0,9],'steps':[]}]}
/clients/0/interest/0: object|{'attrs':1,'objects':[[5]],'bound':4,'clients':[{'interest':[9,0],'steps':[]}]}
/clients/0/interest/1: object|{'attrs':1,'objects':[[5]],'bound':4,'clients':[{'interest':[0,9,1],'steps':[]}]}
/clients/0/interest/1: order|{'attrs':1,'objects':[[5]],'bound':4,'clients':[{'interest':[0,0],'steps':['quit','poll']}]}
/clients/0/interest/1: order|{'attrs':1,'objects':[[5]],'bound':4,'clients':[{'interest':[0,0],'steps':[{'act':''}]}]}
/clients/0/interest/1: order|{'attrs':1,'objects':[[5]],'bound':4,'clients':[{'interest':[0,0],'steps':[{'act':'reads 1 writes { }'}]}]}
/clients/0/steps/0: last|{'attrs':1,'objects':[[5]],'bound':4,'clients':[{'interest':[],'steps':['quit','poll']},{'interest':[0,0],'steps':[]}]}
/clients/0/steps/0/act: text 0 3|{'attrs':1,'objects':[[5]],'bound':4,'clients':[{'interest':[],'steps':[{'act':''}]},{'interest':[0,0],'steps':[]}]}
/clients/0/steps/0/act: action 4|{'attrs':1,'objects':[[5]],'bound':4,'clients':[{'interest':[],'steps':[{'act':'reads 1 writes { }'}]},{'interest':[0,0],'steps':[]}]}
/clients/0/steps/0/show/0: object|{'attrs':1,'objects':[[5]],'bound':4,'clients':[{'interest':[],'steps':[{'show':[9]},'quit','poll']}]}
/clients/0/steps/0: last|{'attrs':1,'objects':[[5]],'bound':4,'clients':[{'interest':[],'steps':['quit',{'show':[9]}]}]}
/clients/0/steps/0/show/0: object|{'attrs':1,'objects':[[5]],'bound':4,'clients':[{'interest':[],'steps':[{'show':[9]},{'act':''}]}]}
/clients/0/steps/0/act: text 0 3|{'attrs':1,'objects':[[5]],'bound':4,'clients':[{'interest':[],'steps':[{'act':''},{'show':[9]}]}]}
/clients/0/steps/0/show/0: object|{'attrs':1,'objects':[[5]],'bound':4,'clients':[{'interest':[],'steps':[{'show':[9]},{'act':'reads 1 writes { }'}]}]}
/clients/0/steps/0/act: action 4|{'attrs':1,'objects':[[5]],'bound':4,'clients':[{'interest':[],'steps':[{'act':'reads 1 writes { }'},{'show':[9]}]}]}
/clients/0/steps/0: last|{'attrs':1,'objects':[[5]],'bound':4,'clients':[{'interest':[],'steps':['quit',{'act':''}]}]}
/clients/0/steps/0/act: text 0 3|{'attrs':1,'objects':[[5]],'bound':4,'clients':[{'interest':[],'steps':[{'act':''},'quit','poll']}]}
/clients/0/steps/0: last|{'attrs':1,'objects':[[5]],'bound':4,'clients':[{'interest':[],'steps':['quit',{'act':'reads 1 writes { }'}]}]}
/clients/0/steps/0/act: action 4|{'attrs':1,'objects':[[5]],'bound':4,'clients':[{'interest':[],'steps':[{'act':'reads 1 writes { }'},'quit','poll']}]}
/clients/0/steps/0/act: text 0 3|{'attrs':1,'objects':[[5]],'bound':4,'clients':[{'interest':[],'steps':[{'act':''},{'act':'reads 1 writes { }'}]}]}
/clients/0/steps/0/act: action 4|{'attrs':1,'objects':[[5]],'bound':4,'clients':[{'interest':[],'steps':[{'act':'reads 1 writes { }'},{'act':''}]}]}
/clients/0/steps/0/act: text 15 4|{'attrs':1,'objects':[[5]],'bound':4,'clients':[{'interest':[],'steps':[{'act':'reads 9 writes 1 { }'}]}]}";

/// The same of texts with a key twice, of which the last one counts.
const DOUBLED: &str = "\
/attrs: range|{'attrs':1,'objects':[[5]],'bound':4,'clients':[],'attrs':9}
/clients: range|{'attrs':1,'objects':[[5]],'bound':4,'clients':[{'interest':[],'steps':[]}],'clients':[]}
/clients/0/steps/0/act: kind|{'attrs':1,'objects':[[5]],'bound':4,'clients':[{'interest':[],'steps':[{'act':'reads 0 writes { }','act':5}]}]}
/x: key|{'attrs':1,'objects':[[5]],'bound':4,'clients':[{'interest':[],'steps':[]}],'x':1,'x':2}";

/// Texts of scenarios.
const READ: &str = "\
{'attrs':1,'objects':[[5]],'bound':4,'clients':[{'interest':[],'steps':[]}]}
{'attrs':9,'objects':[[5]],'bound':4,'clients':[{'interest':[],'steps':[]}],'attrs':1}
{'attrs':1,'objects':[[5]],'bound':4,'clients':[{'interest':[],'steps':[{'act':5,'act':'reads 0 writes { }'}]}]}
{'attrs':1,'objects':[[5]],'bound':4,'reach':0,'clients':[{'interest':[],'steps':[]}]}
{'attrs':1,'objects':[[5]],'bound':4,'reach':2000000,'clients':[{'interest':[],'steps':[]}]}
{'attrs':1,'objects':[[5]],'bound':0,'clients':[{'interest':[],'steps':[]}]}
{'attrs':1,'objects':[[5]],'bound':32,'clients':[{'interest':[],'steps':[]}],'schedule':[]}
{'schedule':['c0','t0','s0','c0'],'clients':[{'interest':[],'steps':[]}],'reach':5,'bound':0,'objects':[[-9223372036854775808,9223372036854775807]],'attrs':2}
{'attrs':1,'objects':[[5]],'bound':4,'clients':[{'interest':[],'steps':[{'show':[0,0,0]}]}]}
{'attrs':1,'objects':[[5]],'bound':4,'clients':[{'interest':[],'steps':[{'observe':[0]}]}]}
{'attrs':1,'objects':[[5],[6]],'bound':4,'clients':[{'interest':[],'steps':[{'observe':[0,1]},'sync',{'observe':[1]}]}]}
{'attrs':1,'objects':[[0],[0],[0],[0],[0],[0],[0],[0],[0],[0],[0],[0],[0],[0],[0],[0]],'bound':4,'clients':[{'interest':[],'steps':[{'observe':[0,1,2,3,4,5,6,7,8,9,10,11,12,13,14,15]}]}]}
{'attrs':1,'objects':[[5]],'bound':4,'clients':[{'interest':[],'steps':['poll','sync','cut','quit']}]}
{'attrs':1,'objects':[[5],[6]],'bound':4,'clients':[{'interest':[0,1],'steps':[]}]}
{'attrs':1,'objects':[[5]],'bound':4,'clients':[{'interest':[],'steps':['cut']}],'schedule':['s0','s1']}
 \t {'attrs':1,'objects':[[5]],'bound':4,'clients':[{'interest':[],'steps':[]}]}\t 
{'attrs':1,'objects':[[0],[0],[0],[0],[0],[0],[0],[0],[0],[0],[0],[0],[0],[0],[0],[0]],'bound':4,'clients':[{'interest':[],'steps':[{'act':'reads 0 1 2 3 4 5 6 7 8 9 10 11 12 13 14 15 writes { }'}]}]}
{'\\u0061ttrs':1,'objects':[[5]],'bound':4,'clients':[{'interest':[],'steps':[]}]}";

/// The text with `"` for each `'`.
fn quoted(alloc: Global, text: &str) -> Result<Vec<u8>, Fail> {
    let mut bytes = Vec::new(alloc);
    for byte in text.as_bytes() {
        bytes.push(if *byte == b'\'' { b'"' } else { *byte })?;
    }
    Ok(bytes)
}

fn tell(fault: ReadFault, line: &mut String) -> Result<(), Fail> {
    match fault {
        ReadFault::Scenario(fault) => {
            let done = append_fault_line(&fault, line);
            drop(fault);
            Ok(done?)
        }
        ReadFault::Memory => Err(Fail::from("out of memory")),
    }
}

/// The line that tells why bytes are no scenario, and `read` where they are one.
fn line_of(alloc: Global, bytes: &[u8]) -> Result<String, Fail> {
    let mut line = String::new(alloc);
    match read_scenario(alloc, bytes) {
        Ok(scenario) => {
            drop(scenario);
            line.push_str("read")?
        }
        Err(fault) => tell(fault, &mut line)?,
    }
    Ok(line)
}

/// Whether this is printed of bytes.
fn is_line(alloc: Global, bytes: &[u8], printed: &str) -> Result<bool, Fail> {
    let line = line_of(alloc, bytes)?;
    Ok(line.as_str() == printed)
}

/// Whether the text of a line of the tables is refused as it says.
fn is_refused(alloc: Global, fault: &str, text: &str) -> Result<bool, Fail> {
    let bytes = quoted(alloc, text)?;
    let printed = format!(in alloc; "scenario: {fault}\n")?;
    is_line(alloc, &bytes, &printed)
}

/// Whether a text is no JSON without its last byte, if it has one.
fn is_whole(alloc: Global, text: &str) -> Result<bool, Fail> {
    let bytes = quoted(alloc, text)?;
    let count = bytes.len().saturating_sub(1);
    is_line(alloc, &bytes[..count], "scenario: : json\n")
}

fn holds(alloc: Global, line: &str) -> Result<bool, Fail> {
    let (fault, text) = line.split_once('|').ok_or("no bar")?;
    Ok(is_refused(alloc, fault, text)? && is_whole(alloc, text)?)
}

/// Each text of a table is refused as the table says, and without its last byte it is no JSON.
fn are_refused(rt: &impl Abort, alloc: Global, table: &str) -> Result<(), Fail> {
    for line in table.lines() {
        assert!(rt; holds(alloc, line)?, "{line}");
    }
    Ok(())
}

#[test]
fn refuses_faulty_scenarios(rt: HostRuntime) -> Result<(), Fail> {
    are_refused(&rt, rt.alloc(), REFUSED)
}

#[test]
fn refuses_the_first_of_two_faults(rt: HostRuntime) -> Result<(), Fail> {
    are_refused(&rt, rt.alloc(), PAIRS)
}

#[test]
fn the_last_of_two_keys_counts(rt: HostRuntime) -> Result<(), Fail> {
    are_refused(&rt, rt.alloc(), DOUBLED)
}

fn is_read(alloc: Global, text: &str) -> Result<bool, Fail> {
    let bytes = quoted(alloc, text)?;
    is_line(alloc, &bytes, "read")
}

#[test]
fn reads_scenarios(rt: HostRuntime) -> Result<(), Fail> {
    for line in READ.lines() {
        assert!(rt; is_read(rt.alloc(), line)?, "{line}");
    }
    Ok(())
}

/// A head, so many times an item with commas between, and a tail.
type Long = (&'static str, &'static str, usize, &'static str);

fn written(alloc: Global, long: Long) -> Result<String, Fail> {
    let (head, item, count, tail) = long;
    let mut text = String::from_str(alloc, head)?;
    for index in 0..count {
        if index > 0 {
            text.push_str(",")?;
        }
        text.push_str(item)?;
    }
    text.push_str(tail)?;
    Ok(text)
}

fn is_printed(alloc: Global, long: Long, printed: &str) -> Result<bool, Fail> {
    let text = written(alloc, long)?;
    let bytes = quoted(alloc, &text)?;
    is_line(alloc, &bytes, printed)
}

/// Up to the clients, to one client's steps, and to its interest.
const CLIENTS: &str = "{'attrs':1,'objects':[[5]],'bound':4,'clients':[";

const STEPS: &str = "{'attrs':1,'objects':[[5]],'bound':4,'clients':[{'interest':[],'steps':[";

const INTEREST: &str = "{'attrs':1,'objects':[[5]],'bound':4,'clients':[{'steps':[],'interest':[";

const WORLD: &str = "{'bound':4,'clients':[{'interest':[],'steps':[]}],'attrs':1,'objects':[";

const TURNS: &str =
    "{'attrs':1,'objects':[[5]],'bound':4,'clients':[{'interest':[],'steps':[]}],'schedule':[";

const SHOW: &str =
    "{'attrs':1,'objects':[[5]],'bound':4,'clients':[{'interest':[],'steps':[{'show':[";

const OBSERVE: &str =
    "{'attrs':1,'objects':[[5]],'bound':4,'clients':[{'interest':[],'steps':[{'observe':[";

const CLIENT: &str = "{'interest':[],'steps':[]}";

#[test]
fn keeps_the_limits_of_lists(rt: HostRuntime) -> Result<(), Fail> {
    for (long, printed) in [
        ((WORLD, "[5]", 4096, "]}"), "read"),
        ((WORLD, "[5]", 4097, "]}"), "scenario: /objects: range\n"),
        ((CLIENTS, CLIENT, 32, "]}"), "read"),
        ((CLIENTS, CLIENT, 33, "]}"), "scenario: /clients: range\n"),
        (
            (INTEREST, "0", 64, "]}]}"),
            "scenario: /clients/0/interest/1: order\n",
        ),
        (
            (INTEREST, "0", 65, "]}]}"),
            "scenario: /clients/0/interest: range\n",
        ),
        ((STEPS, "'sync'", 256, "]}]}"), "read"),
        (
            (STEPS, "'sync'", 257, "]}]}"),
            "scenario: /clients/0/steps: range\n",
        ),
        ((SHOW, "0", 16, "]}]}]}"), "read"),
        (
            (SHOW, "0", 17, "]}]}]}"),
            "scenario: /clients/0/steps/0/show: range\n",
        ),
        (
            (OBSERVE, "0", 16, "]}]}]}"),
            "scenario: /clients/0/steps/0/observe/1: order\n",
        ),
        (
            (OBSERVE, "0", 17, "]}]}]}"),
            "scenario: /clients/0/steps/0/observe: range\n",
        ),
        ((TURNS, "'s0'", 16_384, "]}"), "read"),
        (
            (TURNS, "'s0'", 16_385, "]}"),
            "scenario: /schedule: range\n",
        ),
    ] {
        assert!(rt; is_printed(rt.alloc(), long, printed)?, "{printed}");
    }
    Ok(())
}

/// What may stand behind the steps of the first client: another client, one with a fault, and turns with one.
const MORE: &str = "]},{'interest':[],'steps':[]}]}";

const FAULTY: &str = "]},{'interest':[],'steps':['wait']}]}";

const FAULTY_TURNS: &str = "]}],'schedule':[5]}";

#[test]
fn counts_sessions_behind_the_clients(rt: HostRuntime) -> Result<(), Fail> {
    for (long, printed) in [
        ((STEPS, "'cut'", 63, "]}]}"), "read"),
        ((STEPS, "'cut'", 64, "]}]}"), "scenario: /clients: range\n"),
        ((STEPS, "'cut'", 62, MORE), "read"),
        ((STEPS, "'cut'", 63, MORE), "scenario: /clients: range\n"),
        (
            (STEPS, "'cut'", 64, FAULTY),
            "scenario: /clients/1/steps/0: kind\n",
        ),
        (
            (STEPS, "'cut'", 64, FAULTY_TURNS),
            "scenario: /clients: range\n",
        ),
    ] {
        assert!(rt; is_printed(rt.alloc(), long, printed)?, "{printed}");
    }
    Ok(())
}

/// So many brackets open and close.
fn nested(alloc: Global, depth: u8) -> Result<Vec<u8>, Fail> {
    let mut bytes = Vec::new(alloc);
    for _ in 0..depth {
        bytes.push(b'[')?;
    }
    for _ in 0..depth {
        bytes.push(b']')?;
    }
    Ok(bytes)
}

fn is_nested(alloc: Global, depth: u8, printed: &str) -> Result<bool, Fail> {
    let bytes = nested(alloc, depth)?;
    is_line(alloc, &bytes, printed)
}

#[test]
fn nests_no_deeper_than_127(rt: HostRuntime) -> Result<(), Fail> {
    assert!(rt; is_nested(rt.alloc(), 127, "scenario: : kind\n")?);
    assert!(rt; is_nested(rt.alloc(), 128, "scenario: : json\n")?);
    Ok(())
}

#[test]
fn refuses_what_is_no_text(rt: HostRuntime) -> Result<(), Fail> {
    for bytes in [[0xFF, 0x7B], [b'"', 0x80], [0xC3, 0x28]] {
        assert!(rt; is_line(rt.alloc(), &bytes, "scenario: : json\n")?);
    }
    Ok(())
}

/// A key with an end of line is printed as it stands.
#[test]
fn prints_keys_as_they_are(rt: HostRuntime) -> Result<(), Fail> {
    let text = "{'attrs':1,'objects':[[5]],'bound':4,'clients':[],'a\\n/b':0}";
    let bytes = quoted(rt.alloc(), text)?;
    assert!(rt; is_line(rt.alloc(), &bytes, "scenario: /a\n/b: key\n")?);
    Ok(())
}

const GOOD: &str = "{'attrs':1,'objects':[[5]],'bound':4,'clients':[{'interest':[],'steps':[]}]}";

/// So much is printed of a text with a byte behind it so often that there are so many in all.
fn is_filled(
    alloc: Global,
    text: &str,
    byte: u8,
    size: usize,
    printed: &str,
) -> Result<bool, Fail> {
    let mut bytes = quoted(alloc, text)?;
    for _ in bytes.len()..size {
        bytes.push(byte)?;
    }
    is_line(alloc, &bytes, printed)
}

#[test]
fn refuses_more_than_four_mebibytes(rt: HostRuntime) -> Result<(), Fail> {
    for (text, byte, size, printed) in [
        (GOOD, b' ', 4_194_304, "read"),
        (GOOD, b' ', 4_194_305, "scenario: : size\n"),
        (GOOD, 0xFF, 4_194_304, "scenario: : json\n"),
        (GOOD, 0xFF, 4_194_305, "scenario: : size\n"),
        ("", b' ', 4_194_305, "scenario: : size\n"),
        ("[]", b' ', 4_194_304, "scenario: : kind\n"),
        ("[]", b' ', 4_194_305, "scenario: : size\n"),
    ] {
        assert!(rt;
            is_filled(rt.alloc(), text, byte, size, printed)?,
            "{printed}"
        );
    }
    Ok(())
}

/// What stands in a file before and behind the blanks of an action's text.
const AROUND: [&str; 2] = [
    "{'attrs':1,'objects':[[5]],'bound':4,'clients':[{'interest':[],'steps':[{'act':'reads 0 writes 0 {",
    "set @0.0 1; }'}]}]}",
];

/// So much is printed of a file of so many bytes, of which all but these are blanks in an action's text.
fn is_stretched(alloc: Global, size: usize, printed: &str) -> Result<bool, Fail> {
    let mut bytes = quoted(alloc, AROUND[0])?;
    let behind = quoted(alloc, AROUND[1])?;
    for _ in bytes.len()..size.saturating_sub(behind.len()) {
        bytes.push(b' ')?;
    }
    bytes.extend_from_slice(&behind)?;
    is_line(alloc, &bytes, printed)
}

/// No file can have a longer text of an action.
#[test]
fn reads_the_longest_text_of_an_action(rt: HostRuntime) -> Result<(), Fail> {
    assert!(rt; is_stretched(rt.alloc(), 4_194_304, "read")?);
    assert!(rt; is_stretched(rt.alloc(), 4_194_305, "scenario: : size\n")?);
    Ok(())
}

/// The conflict of two clients, whose turns are fixed.
const CONFLICT: &str =
    "{'attrs':1,'objects':[[10]],'bound':4,'clients':[{'interest':[],'steps':[{'act':'reads 0 writes 0 { set @0.0 (@0.0 * 2); }'}]},{'interest':[0],'steps':[{'act':'reads 0 writes 0 { set @0.0 (@0.0 + 1); }'},'cut','poll',{'show':[0,0]},{'observe':[0]},'quit']}],'schedule':['c0','s2','t1']}";

fn scenario(alloc: Global, bytes: &[u8]) -> Result<Scenario, Fail>
    ensures { IfOk result IsGoodScenario }
{
    match read_scenario(alloc, bytes) {
        Ok(scenario) => Ok(scenario),
        Err(_fault) => Err(Fail::from("it is no scenario")),
    }
}

fn is_first_plan(plan: &Plan) -> bool {
    matches!(plan.steps.as_slice(), [Step::Act(_)])
}

fn is_second_plan(plan: &Plan) -> bool {
    let [
        Step::Act(_),
        Step::Cut,
        Step::Poll,
        Step::Show(shown),
        Step::Observe(observed),
        Step::Quit,
    ] = plan.steps.as_slice()
    else {
        return false;
    };
    shown.as_slice() == [ObjectId(0), ObjectId(0)].as_slice()
        && observed.as_slice() == [ObjectId(0)].as_slice()
        && plan.interest.as_slice() == [ObjectId(0)].as_slice()
        && sessions_of_plan(plan) == 2
}

fn are_plans(plans: &[Plan]) -> bool {
    match plans {
        [first, second] => is_first_plan(first) && is_second_plan(second),
        _ => false,
    }
}

const PLANNED_TURNS: [Turn; 3] = [Turn::Client(0), Turn::Session(2), Turn::Take(1)];

fn is_conflict(scenario: &Scenario) -> bool
    requires { IsGoodScenario scenario.now }
{
    let shape = Shape {
        objects: 1,
        attrs: 1,
    };
    scenario.bound == 4
        && scenario.reach.is_none()
        && scenario.world.shape == shape
        && scenario.schedule.as_slice() == PLANNED_TURNS.as_slice()
        && are_plans(scenario.clients.as_slice())
        && sessions_of(scenario) == 3
}

/// Whether the conflict is read as it stands.
fn is_conflict_read(alloc: Global) -> Result<bool, Fail> {
    let bytes = quoted(alloc, CONFLICT)?;
    let scenario = scenario(alloc, &bytes)?;
    let is_so = is_conflict(&scenario);
    drop(scenario);
    Ok(is_so)
}

#[test]
fn reads_what_the_text_says(rt: HostRuntime) -> Result<(), Fail> {
    assert!(rt; is_conflict_read(rt.alloc())?);
    Ok(())
}
