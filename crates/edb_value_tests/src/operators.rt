//! Each operator, and each exception that it raises.

use crate::terms::{fields, front, meant, name, rows};
use edb_lang::{BinaryOp, Class, Term, UnaryOp};
use edb_ops::{operate, operate_one};
use edb_pure::Raise;
use std::alloc::Global;
use std::test::Fail;

// Operators with their operands and the value.
const GIVE: &str = "[
    {'*',-6,7,-42}, {'*',85070591730234615865843651857942052864,-2,lowest}, {'div',-7,2,-3}, {'div',7,-2,-3},
    {'div',highest,-1,-170141183460469231731687303715884105727}, {'rem',-7,2,-1}, {'rem',7,-2,1}, {'rem',lowest,-1,0},
    {'+',2,3,5}, {'+',highest,lowest,-1}, {'-',2,3,-1}, {'-',-1,highest,lowest},
    {'band',-4,30,28}, {'bor',-4,3,-1}, {'bxor',12,10,6}, {'bxor',highest,lowest,-1},
    {'bsl',-5,0,-5}, {'bsl',5,2,20}, {'bsl',1,126,85070591730234615865843651857942052864}, {'bsl',-1,127,lowest},
    {'bsl',0,highest,0}, {'bsl',-5,-1,-3}, {'bsl',5,-128,0}, {'bsl',-5,lowest,-1},
    {'bsr',-5,0,-5}, {'bsr',5,1,2}, {'bsr',-5,1,-3}, {'bsr',highest,126,1}, {'bsr',highest,127,0}, {'bsr',lowest,127,-1},
    {'bsr',lowest,128,-1}, {'bsr',lowest,highest,-1}, {'bsr',1,-3,8}, {'bsr',0,lowest,0},
    {'and',true,false,false}, {'and',true,true,true}, {'or',false,true,true}, {'or',false,false,false},
    {'xor',true,true,false}, {'xor',true,false,true},
    {'++',[1,2],[3],[1,2,3]}, {'++',[1],2,[1|2]}, {'++',[],a,a}, {'++',{zeros,3999},[0],{zeros,4000}},
    {'++',{zeros,4000},[],{zeros,4000}}, {'++',{zeros,4000},a,{zeros,4000,a}},
    {'--',[1,2,1,3,1],[1,4,1],[2,3,1]}, {'--',[],[1],[]}, {'--',{zeros,4000},{zeros,3999},[0]},
    {'==',{1,a},{1,a},true}, {'==',1,a,false}, {'/=',[1],[1],false}, {'/=',[],{},true},
    {'=<',1,1,true}, {'=<',{1,1},{9},false}, {'<',9,a,true}, {'<',ab,abc,true}, {'<',[1],[],false}, {'<',a,{reference,1},true},
    {'<',{reference,1},{function,1},true}, {'<',{function,1},{pid,1},true}, {'<',{pid,1},{},true},
    {'>=',[1,2],[1],true}, {'>',[],{1,2},true}, {'>',-1,-1,false}, {'=:=',\"a\",[97],true}, {'=/=','a',a,false}
]";

// Operators before their operands, and the value.
const GIVE_ALONE: &str = "[
    {'+',-5,-5}, {'-',5,-5}, {'-',highest,-170141183460469231731687303715884105727}, {'bnot',0,-1}, {'bnot',highest,lowest},
    {'bnot',lowest,highest}, {'not',true,false}, {'not',false,true}
]";

// Operators with their operands and the reason of the error.
const RAISE: &str = "[
    {'/',4,2,badarith}, {'*',[],0,badarith}, {'div',1,0,badarith}, {'rem',1,0,badarith}, {'rem',a,1,badarith},
    {'+',1,{},badarith}, {'-',a,1,badarith}, {'band',1,a,badarith}, {'bor',a,1,badarith}, {'bxor',1,a,badarith},
    {'bsl',a,1,badarith}, {'bsr',1,a,badarith},
    {'*',85070591730234615865843651857942052864,2,system_limit}, {'*',lowest,-1,system_limit}, {'div',lowest,-1,system_limit},
    {'+',highest,1,system_limit}, {'-',lowest,1,system_limit}, {'-',0,lowest,system_limit},
    {'bsl',1,127,system_limit}, {'bsl',1,128,system_limit}, {'bsl',-1,128,system_limit}, {'bsl',1,highest,system_limit},
    {'bsr',1,-127,system_limit}, {'bsr',-1,-128,system_limit}, {'bsr',1,lowest,system_limit},
    {'++',{zeros,4000},[0],system_limit},
    {'and',false,1,badarg}, {'or',true,[],badarg}, {'xor',truth,true,badarg},
    {'++',[1|2],[],badarg}, {'++',a,[],badarg}, {'--',[1],[1|2],badarg}, {'--',a,[],badarg}
]";

// The same before their operands.
const RAISE_ALONE: &str = "[
    {'+',a,badarith}, {'-',[],badarith}, {'bnot',true,badarith}, {'not',0,badarg}, {'-',lowest,system_limit}
]";

// An operator of expressions, by its text and what is on its sides.
fn operator(text: &str) -> Result<BinaryOp, Fail> {
    Ok(match text {
        "/" => BinaryOp::Divide,
        "*" => BinaryOp::Multiply,
        "div" => BinaryOp::Div,
        "rem" => BinaryOp::Rem,
        "band" => BinaryOp::BitAnd,
        "and" => BinaryOp::And,
        "+" => BinaryOp::Add,
        "-" => BinaryOp::Subtract,
        "bor" => BinaryOp::BitOr,
        "bxor" => BinaryOp::BitXor,
        "bsl" => BinaryOp::ShiftLeft,
        "bsr" => BinaryOp::ShiftRight,
        "or" => BinaryOp::Or,
        "xor" => BinaryOp::Xor,
        "++" => BinaryOp::Append,
        "--" => BinaryOp::Remove,
        "==" => BinaryOp::Equal,
        "/=" => BinaryOp::Unequal,
        "=<" => BinaryOp::AtMost,
        "<" => BinaryOp::LessThan,
        ">=" => BinaryOp::AtLeast,
        ">" => BinaryOp::GreaterThan,
        "=:=" => BinaryOp::ExactlyEqual,
        "=/=" => BinaryOp::ExactlyUnequal,
        _ => return Err(Fail::from("no operator")),
    })
}

fn operator_alone(text: &str) -> Result<UnaryOp, Fail> {
    Ok(match text {
        "+" => UnaryOp::Plus,
        "-" => UnaryOp::Minus,
        "bnot" => UnaryOp::BitNot,
        "not" => UnaryOp::Not,
        _ => return Err(Fail::from("no operator before an operand")),
    })
}

// The answer to the operator and the operands of a row, and the last field.
fn answer(alloc: Global, row: &Term) -> Result<(Result<Term, Raise>, Term), Fail> {
    match fields(row)? {
        [op, value, want] => {
            let answer = operate_one(alloc, operator_alone(name(op)?)?, &meant(alloc, value)?)?;
            Ok((answer, meant(alloc, want)?))
        }
        [op, left, right, want] => {
            let (left, right) = (meant(alloc, left)?, meant(alloc, right)?);
            let answer = operate(alloc, operator(name(op)?)?, &left, &right)?;
            Ok((answer, meant(alloc, want)?))
        }
        _ => Err(Fail::from("a row of another length")),
    }
}

#[test]
fn operators_give(rt: HostRuntime) -> Result<(), Fail> {
    let alloc = rt.alloc();
    for text in [GIVE, GIVE_ALONE] {
        for row in &rows(alloc, text)? {
            let (answer, want) = answer(alloc, row)?;
            assert!(rt;
                answer.is_ok_and(|value| value.same(&want)),
                "{}",
                front(row)?
            );
        }
    }
    Ok(())
}

// Whether an answer is an error with this reason.
fn is_error(answer: &Result<Term, Raise>, reason: &Term) -> bool {
    match answer {
        Ok(_) => false,
        Err(raise) => raise.class == Class::Error && raise.reason.same(reason),
    }
}

#[test]
fn operators_raise(rt: HostRuntime) -> Result<(), Fail> {
    let alloc = rt.alloc();
    for text in [RAISE, RAISE_ALONE] {
        for row in &rows(alloc, text)? {
            let (answer, want) = answer(alloc, row)?;
            assert!(rt; is_error(&answer, &want), "{}", front(row)?);
        }
    }
    Ok(())
}
