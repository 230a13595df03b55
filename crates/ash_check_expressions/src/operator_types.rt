//! The types that operators take, and those of their results.

ghost use Rattle.std.specs.Prelude.{◌≡◌};
ghost use Rattle.ash_type_rules.specs.TypeRules as types;
ghost use Rattle.ash_type_rules.specs.Terms as terms;

use ash_check_names::{common_integer_type, is_same_object};
use ash_tree::{AssignOp, BinaryOp};
use ash_type_rules::{Operator, OperatorClass, Ty};
use ash_typed::{Calculator, Comparator, IntType, Lazy, ObjectType, Operands};

/// The class of an operator.
pub(crate) fn operator_class(operator: BinaryOp) -> OperatorClass
    ensures value { result ≡ types.operator_class_of operator }
{
    match operator {
        BinaryOp::Multiply | BinaryOp::Divide | BinaryOp::Remainder => OperatorClass::Arithmetic,
        BinaryOp::Add | BinaryOp::Subtract => OperatorClass::Arithmetic,
        BinaryOp::BitAnd | BinaryOp::BitXor | BinaryOp::BitOr => OperatorClass::Arithmetic,
        BinaryOp::ShiftLeft | BinaryOp::ShiftRight | BinaryOp::ShiftRightArithmetic =>
            OperatorClass::Shift,
        BinaryOp::Less | BinaryOp::LessOrEqual => OperatorClass::Order,
        BinaryOp::Greater | BinaryOp::GreaterOrEqual => OperatorClass::Order,
        BinaryOp::Equal | BinaryOp::NotEqual => OperatorClass::Equality,
        BinaryOp::Is | BinaryOp::NotIs => OperatorClass::Identity,
        BinaryOp::Xor | BinaryOp::And | BinaryOp::Or => OperatorClass::Logic,
    }
}

/// What an operator is in a typed tree.
pub(crate) fn typed_operator(operator: BinaryOp) -> Operator
    ensures value { result ≡ types.typed_operator operator }
{
    match operator {
        BinaryOp::Multiply => Operator::Calculate(Calculator::Multiply),
        BinaryOp::Divide => Operator::Calculate(Calculator::Divide),
        BinaryOp::Remainder => Operator::Calculate(Calculator::Remainder),
        BinaryOp::Add => Operator::Calculate(Calculator::Add),
        BinaryOp::Subtract => Operator::Calculate(Calculator::Subtract),
        BinaryOp::ShiftLeft => Operator::Calculate(Calculator::ShiftLeft),
        BinaryOp::ShiftRight => Operator::Calculate(Calculator::ShiftRight),
        BinaryOp::ShiftRightArithmetic => Operator::Calculate(Calculator::ShiftRightArithmetic),
        BinaryOp::BitAnd => Operator::Calculate(Calculator::BitAnd),
        BinaryOp::BitXor => Operator::Calculate(Calculator::BitXor),
        BinaryOp::BitOr => Operator::Calculate(Calculator::BitOr),
        BinaryOp::Less => Operator::Compare(Comparator::Less),
        BinaryOp::LessOrEqual => Operator::Compare(Comparator::LessOrEqual),
        BinaryOp::Greater => Operator::Compare(Comparator::Greater),
        BinaryOp::GreaterOrEqual => Operator::Compare(Comparator::GreaterOrEqual),
        BinaryOp::Equal => Operator::Compare(Comparator::Equal),
        BinaryOp::NotEqual => Operator::Compare(Comparator::NotEqual),
        BinaryOp::Is => Operator::Compare(Comparator::Is),
        BinaryOp::NotIs => Operator::Compare(Comparator::NotIs),
        BinaryOp::Xor => Operator::Compare(Comparator::Xor),
        BinaryOp::And => Operator::Lazy(Lazy::And),
        BinaryOp::Or => Operator::Lazy(Lazy::Or),
    }
}

/// The operator that calculates so.
pub(crate) fn calculator_operator(operator: Calculator) -> BinaryOp
    ensures value { result ≡ types.binary_of operator }
{
    match operator {
        Calculator::Multiply => BinaryOp::Multiply,
        Calculator::Divide => BinaryOp::Divide,
        Calculator::Remainder => BinaryOp::Remainder,
        Calculator::Add => BinaryOp::Add,
        Calculator::Subtract => BinaryOp::Subtract,
        Calculator::ShiftLeft => BinaryOp::ShiftLeft,
        Calculator::ShiftRight => BinaryOp::ShiftRight,
        Calculator::ShiftRightArithmetic => BinaryOp::ShiftRightArithmetic,
        Calculator::BitAnd => BinaryOp::BitAnd,
        Calculator::BitXor => BinaryOp::BitXor,
        Calculator::BitOr => BinaryOp::BitOr,
    }
}

/// The integer type of operands, where they are integers.
pub(crate) fn operand_integer_type(operands: Operands) -> IntType
    ensures value { result ≡ types.integers_in operands }
{
    match operands {
        Operands::Integers(int_type) => int_type,
        _ => IntType::Int,
    }
}

/// The operator of `a op= b`.
pub(crate) fn assign_calculator(operator: AssignOp) -> Option<Calculator>
    ensures value { result ≡ terms.operator_of operator }
{
    match operator {
        AssignOp::Assign => None,
        AssignOp::Add => Some(Calculator::Add),
        AssignOp::Subtract => Some(Calculator::Subtract),
        AssignOp::Multiply => Some(Calculator::Multiply),
        AssignOp::Divide => Some(Calculator::Divide),
        AssignOp::Remainder => Some(Calculator::Remainder),
        AssignOp::BitAnd => Some(Calculator::BitAnd),
        AssignOp::BitOr => Some(Calculator::BitOr),
        AssignOp::BitXor => Some(Calculator::BitXor),
        AssignOp::ShiftLeft => Some(Calculator::ShiftLeft),
        AssignOp::ShiftRight => Some(Calculator::ShiftRight),
        AssignOp::ShiftRightArithmetic => Some(Calculator::ShiftRightArithmetic),
    }
}

/// Whether an operator takes a type anywhere.
pub(crate) fn accepts(class: OperatorClass, of: Ty) -> bool
    ensures value { result ≡ types.takes class of }
{
    match (class, of) {
        (_, Ty::Unknown) => true,
        (OperatorClass::Arithmetic | OperatorClass::Shift | OperatorClass::Order, Ty::Integer(_)) =>
            true,
        (OperatorClass::Equality, Ty::Integer(_) | Ty::Bool) => true,
        (OperatorClass::Identity, Ty::Object(_) | Ty::Handle(_) | Ty::Null) => true,
        (OperatorClass::Logic, Ty::Bool) => true,
        _ => false,
    }
}

/// What an operand of an unknown type is taken for.
pub(crate) fn assumed_type(class: OperatorClass, other: Ty, of: Ty) -> Ty
    ensures value { result ≡ types.assumed_type class other of }
{
    match (class, other, of) {
        (OperatorClass::Equality, Ty::Bool, Ty::Unknown) => Ty::Bool,
        (OperatorClass::Identity, _, Ty::Unknown) => Ty::Null,
        (OperatorClass::Logic, _, Ty::Unknown) => Ty::Bool,
        (_, _, Ty::Unknown) => Ty::Integer(IntType::Int),
        _ => of,
    }
}

fn is_interface(object: ObjectType) -> bool
    ensures value { result ≡ types.is_interface object }
{
    matches!(object, ObjectType::Interface(_))
}

/// Whether objects of two types can be compared.
fn are_comparable_objects(one: ObjectType, other: ObjectType) -> bool
    ensures value { result ≡ types.is_comparable one other }
{
    is_same_object(one, other) || is_interface(one) || is_interface(other)
}

/// Whether an expression of a type can be compared with an object of this one.
fn is_comparable_with_object(object: ObjectType, of: Ty) -> bool
    ensures value { result ≡ types.agrees_object object of }
{
    match of {
        Ty::Object(other) | Ty::Handle(other) => are_comparable_objects(object, other),
        Ty::Null | Ty::Unknown => true,
        _ => false,
    }
}

fn are_comparable(one: Ty, other: Ty) -> bool
    ensures value { result ≡ types.agrees one other }
{
    match one {
        Ty::Object(object) | Ty::Handle(object) => is_comparable_with_object(object, other),
        Ty::Null | Ty::Unknown => matches!(
            other,
            Ty::Object(_) | Ty::Handle(_) | Ty::Null | Ty::Unknown
        ),
        _ => false,
    }
}

/// What an operator does with operands of these types, where it takes them.
pub(crate) fn common_operands(class: OperatorClass, one: Ty, other: Ty) -> Option<Operands>
    ensures value { result ≡ types.common_operands class one other }
{
    match (class, one, other) {
        (
            OperatorClass::Arithmetic | OperatorClass::Order | OperatorClass::Equality,
            Ty::Integer(j),
            Ty::Integer(k),
        ) => { Some(Operands::Integers(common_integer_type(j, k))) }
        (OperatorClass::Shift, Ty::Integer(j), Ty::Integer(_)) => Some(Operands::Integers(j)),
        (OperatorClass::Equality | OperatorClass::Logic, Ty::Bool, Ty::Bool) => Some(
            Operands::Bools,
        ),
        (OperatorClass::Identity, _, _) => {
            if are_comparable(one, other) {
                Some(Operands::Handles)
            } else {
                None
            }
        }
        _ => None,
    }
}

/// The type of an operator's result.
pub(crate) fn operator_result(class: OperatorClass, operands: Operands) -> Ty
    ensures value { result ≡ types.operator_result class operands }
{
    match (class, operands) {
        (OperatorClass::Arithmetic | OperatorClass::Shift, Operands::Integers(int_type)) => {
            Ty::Integer(int_type)
        }
        _ => Ty::Bool,
    }
}

pub(crate) fn operand_type(operands: Operands) -> Ty
    ensures value { result ≡ terms.operand_type operands }
{
    match operands {
        Operands::Integers(int_type) => Ty::Integer(int_type),
        Operands::Bools => Ty::Bool,
        Operands::Handles => Ty::Null,
    }
}
