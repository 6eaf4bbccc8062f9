//! Each built-in that has an answer of its own, and each exception that it raises.

use crate::terms::{fields, front, last, meant_all, name, rows};
use edb_lang::{Class, Term};
use edb_ops::{call_bif, is_pure};
use edb_pure::Raise;
use edb_table::find_built_in;
use std::alloc::Global;
use std::process::Abort;
use std::test::Fail;

// The process that asks.
const ME: u32 = 7;

// Of a module: built-ins with their arguments and the value.
const GIVE: [(&str, &str); 3] = [
    (
        "erlang",
        "[
        {abs,[-5],5}, {abs,[-170141183460469231731687303715884105727],highest}, {append_element,[{a},b],{a,b}},
        {append_element,[{wide,99998},0],{wide,99999}}, {atom_to_list,[abc],\"abc\"}, {atom_to_list,[''],[]},
        {atom_to_list,[{letters_atom,255}],{letters,255}}, {element,[2,{a,b,c}],b}, {hd,[[a,b]],a}, {hd,[[a|b]],a},
        {integer_to_list,[-120],\"-120\"}, {integer_to_list,[0],\"0\"},
        {integer_to_list,[lowest],\"-170141183460469231731687303715884105728\"},
        {is_atom,[a],true}, {is_atom,[1],false}, {is_boolean,[false],true}, {is_boolean,[truth],false},
        {is_function,[{function,1}],true}, {is_function,[a],false}, {is_function,[{function,1},1],true},
        {is_function,[{function,1},2],false}, {is_function,[a,highest],false}, {is_integer,[-1],true}, {is_integer,[[]],false},
        {is_list,[[1|2]],true}, {is_list,[[]],true}, {is_list,[{}],false}, {is_number,[1],true}, {is_number,[a],false},
        {is_pid,[{pid,3}],true}, {is_pid,[3],false}, {is_reference,[{reference,3}],true}, {is_reference,[{pid,3}],false},
        {is_tuple,[{}],true}, {is_tuple,[[]],false}, {length,[[a,b]],2}, {length,[[]],0}, {length,[{zeros,4000}],4000},
        {list_to_atom,[\"a b\"],'a b'}, {list_to_atom,[[]],''}, {list_to_atom,[{letters,255}],{letters_atom,255}},
        {list_to_integer,[\"-12\"],-12}, {list_to_integer,[\"+007\"],7},
        {list_to_integer,[\"-170141183460469231731687303715884105728\"],lowest},
        {list_to_integer,[\"170141183460469231731687303715884105727\"],highest},
        {list_to_tuple,[[a,1]],{a,1}}, {list_to_tuple,[[]],{}}, {list_to_tuple,[{zeros,4000}],{wide,4000}},
        {max,[1,a],a}, {max,[[],{1}],[]}, {min,[1,a],1}, {min,[[],{1}],{1}}, {self,[],{pid,7}},
        {setelement,[1,{a,b},c],{c,b}}, {setelement,[2,{a,b},c],{a,c}}, {setelement,[1,{0},{wide,99998}],{wide_in_tuple,99998}},
        {tl,[[a,b]],[b]}, {tl,[[a|b]],b}, {tuple_size,[{a,b}],2}, {tuple_size,[{}],0}, {tuple_to_list,[{a,b}],[a,b]},
        {tuple_to_list,[{}],[]}, {tuple_to_list,[{wide,4000}],{zeros,4000}}
    ]",
    ),
    (
        "int",
        "[
        {get_binding,['X',[{'Y',1},{'X',2},{'X',3}]],{value,2}}, {get_binding,['X',[]],unbound}
    ]",
    ),
    (
        "lists",
        "[
        {append,[[[1],[],[2,3]]],[1,2,3]}, {append,[{zero_lists,2000}],{zeros,4000}}, {append,[[1],[2]],[1,2]},
        {append,[{zeros,3999},[0]],{zeros,4000}}, {delete,[1,[2,1,3,1]],[2,3,1]}, {delete,[a,[b]],[b]},
        {duplicate,[3,a],[a,a,a]}, {duplicate,[0,a],[]}, {duplicate,[4000,0],{zeros,4000}},
        {duplicate,[1,{wide,99997}],{wide_in_list,99997}},
        {flatten,[[1,[[2],[]],[3|[4]]]],[1,2,3,4]}, {flatten,[[{[1]}]],[{[1]}]}, {flatten,[{zero_lists,2000}],{zeros,4000}},
        {keydelete,[b,1,[{a},{b},{b,2}]],[{a},{b,2}]}, {keydelete,[c,1,[{a},{b}]],[{a},{b}]},
        {keyfind,[b,2,[a,{b},{c,b},{d,b}]],{c,b}}, {keyfind,[b,2,[{b,a}]],false},
        {keymember,[b,1,[{a},{b}]],true}, {keymember,[b,3,[{a},{b}]],false},
        {keyreplace,[b,1,[{a},{b},{b}],{x,y}],[{a},{x,y},{b}]}, {keyreplace,[c,1,[{a}],{x}],[{a}]},
        {keysort,[2,[{a,3},{b,1},{c,3},{d,2}]],[{b,1},{d,2},{a,3},{c,3}]}, {keysort,[1,[]],[]},
        {keystore,[b,1,[{a},{b},{b}],{x,y}],[{a},{x,y},{b}]}, {keystore,[c,1,[{a}],{x}],[{a},{x}]},
        {keystore,[a,1,{zeros,3998},{a}],{zeros,3998,[{a}]}}, {last,[[1,2,3]],3}, {max,[[1,[],a,{}]],[]},
        {member,[b,[a,b]],true}, {member,[c,[a,b]],false}, {min,[[b,[],a,{}]],a}, {nth,[2,[a,b,c]],b},
        {nthtail,[1,[a,b]],[b]}, {nthtail,[2,[a,b]],[]}, {nthtail,[0,[]],[]}, {reverse,[[1,2,3]],[3,2,1]},
        {reverse,[[1,2],[3]],[2,1,3]}, {reverse,[{zeros,3999},[0]],{zeros,4000}}, {seq,[-1,2],[-1,0,1,2]}, {seq,[1,0],[]},
        {seq,[1,4000],{numbers,4000}}, {seq,[highest,highest],[170141183460469231731687303715884105727]},
        {sort,[[b,[],{},2,b,-1,[0]]],[-1,2,b,b,{},[],[0]]}, {sort,[{zeros,4000}],{zeros,4000}},
        {sublist,[[a,b,c],2],[a,b]}, {sublist,[[a],5],[a]}, {sublist,[[a],0],[]}, {sublist,[[a],highest],[a]},
        {sum,[[1,2,-4]],-1}, {sum,[[]],0}, {sum,[{numbers,4000}],8002000},
        {sum,[[170141183460469231731687303715884105727,1,1,-2]],highest},
        {unzip,[[{1,a},{2,b}]],{[1,2],[a,b]}}, {unzip,[[]],{[],[]}}, {usort,[[b,1,b,a,1]],[1,a,b]}, {usort,[{zeros,4000}],[0]},
        {zip,[[1,2],[a,b]],[{1,a},{2,b}]}, {zip,[[],[]],[]}
    ]",
    ),
];

// The same that raise the error `badarg`.
const RAISE_BADARG: [(&str, &str); 3] = [
    (
        "erlang",
        "[
        {abs,[a]}, {append_element,[[],b]}, {atom_to_list,[\"abc\"]}, {element,[0,{a}]}, {element,[2,{a}]}, {element,[1,[a]]},
        {hd,[[]]}, {integer_to_list,[a]}, {is_function,[a,-1]}, {is_function,[{function,1},b]}, {length,[[a|b]]}, {length,[{}]},
        {list_to_atom,[[97|98]]}, {list_to_atom,[[-1]]}, {list_to_atom,[[55296]]}, {list_to_atom,[{letters,256,[-1]}]},
        {list_to_integer,[\"-\"]}, {list_to_integer,[\"\"]}, {list_to_integer,[\" 1\"]}, {list_to_integer,[\"1.0\"]},
        {list_to_tuple,[[a|b]]}, {setelement,[3,{a,b},c]}, {setelement,[0,{a,b},c]}, {setelement,[1,a,c]}, {tl,[[]]},
        {tuple_size,[[a]]}, {tuple_to_list,[a]}
    ]",
    ),
    (
        "int",
        "[
        {get_binding,[1,[]]}, {get_binding,['X',[{'X',2},{1,3}]]}, {get_binding,['X',[{'X',2}|a]]}, {get_binding,['X',[{'X'}]]}
    ]",
    ),
    (
        "lists",
        "[
        {append,[[[1],2]]}, {append,[1,[2]]}, {append,[[1],2]}, {delete,[a,a]}, {duplicate,[-1,a]}, {flatten,[[1,[2|3]]]},
        {flatten,[a]}, {keydelete,[c,0,[]]}, {keyfind,[b,a,[]]}, {keyfind,[b,1,{b}]}, {keymember,[b,0,[{b}]]},
        {keyreplace,[a,1,[{a}],x]}, {keysort,[2,[{a}]]}, {keysort,[1,[a]]}, {keysort,[0,[]]}, {keystore,[c,1,[{a}],[x]]},
        {keystore,[c,1,[{a}|b],{x}]}, {last,[[]]}, {last,[[1|2]]}, {max,[[]]}, {member,[a,[a|b]]}, {min,[a]}, {nth,[0,[a]]},
        {nth,[2,[a]]}, {nthtail,[3,[a,b]]}, {reverse,[[1|2]]}, {reverse,[a,[]]}, {reverse,[[],a]}, {seq,[1,-1]}, {seq,[a,1]},
        {seq,[highest,lowest]}, {sort,[[2|1]]}, {sublist,[[a],-1]}, {sum,[[170141183460469231731687303715884105727,1,a]]},
        {unzip,[[{1,a,x}]]}, {unzip,[[{1,a}|b]]}, {usort,[{}]}, {zip,[[1],[]]}, {zip,[[1],a]}
    ]",
    ),
];

// The same that raise the error `system_limit`.
const RAISE_LIMIT: [(&str, &str); 2] = [
    (
        "erlang",
        "[
        {abs,[lowest]}, {append_element,[{wide,99999},0]}, {list_to_atom,[{letters,256}]},
        {list_to_integer,[\"170141183460469231731687303715884105728\"]},
        {list_to_integer,[\"-170141183460469231731687303715884105729\"]},
        {setelement,[1,{0},{wide,99999}]}, {tuple_to_list,[{wide,4001}]}
    ]",
    ),
    (
        "lists",
        "[
        {append,[{zero_lists,2001}]}, {append,[{zeros,4000},[0]]}, {duplicate,[4001,0]}, {duplicate,[highest,0]},
        {duplicate,[4000,{}]}, {duplicate,[1,{wide,99998}]}, {flatten,[{zero_lists,2001}]}, {keystore,[a,1,{zeros,3999},{a}]},
        {keystore,[a,1,{zeros,4000},{a}]}, {reverse,[{zeros,4000},[0]]}, {seq,[1,4001]}, {seq,[lowest,highest]},
        {sum,[[170141183460469231731687303715884105727,1]]}, {sum,[[-170141183460469231731687303715884105727,-1,-1]]},
        {zip,[{zeros,4000},{zeros,4000}]}
    ]",
    ),
];

// The answer of the built-in of a module with the name and the arguments of a row.
fn answer(
    rt: &impl Abort,
    alloc: Global,
    home: &str,
    row: &Term,
) -> Result<Result<Term, Raise>, Fail> {
    let (name, args) = match fields(row)? {
        [first, second, ..] => (name(first)?, meant_all(alloc, second)?),
        _ => return Err(Fail::from("a row of another length")),
    };
    assert!(rt; args.len() < 5);
    match find_built_in(home, name, args.len() as u8) {
        Some(index) => {
            assert!(rt; is_pure(index), "{name}");
            Ok(call_bif(alloc, index, &args, ME)?)
        }
        None => Err(Fail::from("no built-in")),
    }
}

// Whether an answer is the error with this reason.
fn is_error(answer: &Result<Term, Raise>, class: Class, reason: &str) -> Result<bool, Fail> {
    match answer {
        Ok(_) => Ok(false),
        Err(raise) => Ok(raise.class == class && name(&raise.reason)? == reason),
    }
}

#[test]
fn built_ins_give(rt: HostRuntime) -> Result<(), Fail> {
    let alloc = rt.alloc();
    for (home, text) in GIVE {
        for row in &rows(alloc, text)? {
            let answer = answer(&rt, alloc, home, row)?;
            let want = last(alloc, row)?;
            assert!(rt;
                answer.is_ok_and(|value| value.same(&want)),
                "{home}:{}",
                front(row)?
            );
        }
    }
    Ok(())
}

#[test]
fn built_ins_raise(rt: HostRuntime) -> Result<(), Fail> {
    let alloc = rt.alloc();
    for (reason, texts) in [
        ("badarg", RAISE_BADARG.as_slice()),
        ("system_limit", RAISE_LIMIT.as_slice()),
    ] {
        for (home, text) in texts {
            for row in &rows(alloc, text)? {
                let answer = answer(&rt, alloc, home, row)?;
                assert!(rt;
                    is_error(&answer, Class::Error, reason)?,
                    "{home}:{}",
                    front(row)?
                );
            }
        }
    }
    for (text, class) in [
        ("[{error,[a]}]", Class::Error),
        ("[{exit,[a]}]", Class::Exit),
        ("[{throw,[a]}]", Class::Throw),
    ] {
        for row in &rows(alloc, text)? {
            let answer = answer(&rt, alloc, "erlang", row)?;
            assert!(rt; is_error(&answer, class, "a")?);
        }
    }
    Ok(())
}
