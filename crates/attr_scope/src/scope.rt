// What may be named where an expression stands, and what a call means there.
ghost use Rattle.std.specs.Prelude.{◌≡◌, ◌==◌, length, position};
ghost use Rattle.std.specs.Str.{bytes_eq};
ghost use Rattle.std.specs.Option.{option_and_then};
ghost use Rattle.attr_rules.specs.Accessors.{arguments_of};
ghost use Rattle.attr_rules.specs.Rules.{no_params};
ghost use Rattle.attr_rules.specs.Types.{parameter_kinds};
ghost use Rattle.attr_scope.specs.Scope as spec;
ghost use Rattle.attr_scope.specs.Scope.{arguments_wanted, list_called, member_of, member_on, type_called, type_named, variable_named, wanted_for};
ghost use Rattle.attr_scope.specs.ScopeKept.{IsScope};
ghost use Rattle.attr_scope.specs.Seen.{seen_scope};

use ast_grammar::{ClassId, Grammar};
use attr_rules::{Access, Accessor, AttrId, Attributes, Kind, Params, ValueType, accessor_of};

/// A call has at most so many arguments.
const MOST_PARAMETERS: u32 = 3;

/// What a name means behind a receiver of a class.
#[derive(Clone, Copy, Debug, PartialEq, Eq)]
pub enum Member {
    /// A component is read.
    Reads(Accessor),
    /// An attribute is called.
    Calls(AttrId),
}

impl Member {
    /// Whether it gives a whole list, which stands in ranges alone.
    pub fn is_list(self) -> bool
        ensures { result ≡ spec.is_list self }
    {
        matches!(
            self,
            Member::Reads(Accessor {
                access: Access::Elements,
                ..
            })
        )
    }
}

// The list that a call with so many arguments gives, where it takes so many.
fn list_called(member: Member, count: usize) -> Option<Accessor>
    ensures { result ≡ list_called count member }
{
    match member {
        Member::Reads(accessor)
            if accessor.access == Access::Elements && accessor.access.arguments().len() == count =>
            { Some(accessor) }
        _ => None,
    }
}

/// No parameters.
pub fn no_params() -> Params
    ensures { result ≡ no_params }
{
    Params {
        count: 0,
        first: Kind::Truth,
        second: Kind::Truth,
        third: Kind::Truth,
    }
}

// The parameters of an accessor.
fn params_of(access: Access) -> Params
    ensures { parameter_kinds result ≡ arguments_of access }
{
    match access {
        Access::Element => Params {
            count: 1,
            first: Kind::Int,
            ..no_params()
        },
        Access::Child | Access::Token(_) | Access::Has | Access::Count | Access::Elements => {
            no_params()
        }
    }
}

/// A name that stands for a value, and the type of its values, where that is known.
#[derive(Clone, Copy, Debug)]
pub struct Variable<'a> {
    pub name: &'a [u8],
    pub value_type: Option<ValueType>,
}

// The place of the first of this name.
fn place_of(variables: &[Variable<'_>], name: &[u8]) -> Option<usize>
    ensures { result ≡ position (λ v. bytes_eq v.name.now name.now) variables.now }
{
    variables.iter().position(|variable| variable.name == name)
}

/// Where an expression stands: in an equation of a class, with some names, the innermost first.
#[derive(Clone, Copy)]
pub struct Scope<'a> {
    pub grammar: &'a Grammar,
    pub attributes: &'a Attributes,
    pub class: ClassId,
    pub variables: &'a [Variable<'a>],
}

impl Scope<'_> {
    /// The number of a name: that of the innermost one.
    pub fn variable(&self, name: &[u8]) -> Option<usize>
        ensures { result ≡ variable_named (seen_scope self.now) name.now }
    {
        place_of(self.variables, name)
    }

    /// The type of a name's values, where that is known.
    pub fn variable_type(&self, name: &[u8]) -> Option<ValueType>
        ensures { result ≡ type_named (seen_scope self.now) name.now }
    {
        let number = self.variable(name)?;
        self.variables.get(number)?.value_type
    }

    /// What a name means behind a receiver of a class, called with so many arguments.
    pub fn member_of(&self, name: &[u8], count: usize, class: ClassId) -> Option<Member>
        requires { IsScope (seen_scope self.now) }
        ensures { result ≡ member_of (seen_scope self.now) name.now count class }
    {
        if let Some(accessor) = accessor_of(self.grammar, class, name, count) {
            return Some(Member::Reads(accessor));
        }
        if u32::from(class.0) >= self.grammar.classes() {
            return None;
        }
        let attribute = self.attributes.find(class, name)?;
        Some(Member::Calls(attribute))
    }

    /// What a name means behind a receiver of a type, where that is known, called with so many arguments.
    pub fn member_on(
        &self,
        receiver: Option<ValueType>,
        name: &[u8],
        count: usize,
    ) -> Option<Member>
        requires { IsScope (seen_scope self.now) }
        ensures { result ≡ member_on (seen_scope self.now) receiver name.now count }
    {
        let class = receiver?.class()?;
        self.member_of(name, count, class)
    }

    /// The parameters of a member.
    pub fn arguments(&self, member: Member) -> Params
        ensures { parameter_kinds result ≡ arguments_wanted (seen_scope self.now) member }
    {
        match member {
            Member::Reads(accessor) => params_of(accessor.access),
            Member::Calls(attribute) if u32::from(attribute.0) < self.attributes.len() => {
                self.attributes.attr(attribute).params
            }
            Member::Calls(_) => no_params(),
        }
    }

    /// Whether a member takes so many arguments.
    pub fn takes(&self, member: Member, count: usize) -> bool
        ensures { result ≡ (length (arguments_wanted (seen_scope self.now) member) == count) }
    {
        let params = self.arguments(member);
        params.count.min(MOST_PARAMETERS) as usize == count
    }

    /// The parameters of what is called with so many arguments, where it takes so many.
    pub fn wanted_for(&self, member: Option<Member>, count: usize) -> Params
        ensures { parameter_kinds result ≡ wanted_for (seen_scope self.now) member count }
    {
        match member {
            Some(member) if self.takes(member, count) => self.arguments(member),
            _ => no_params(),
        }
    }

    /// The type of a call. A list, which stands in ranges alone, has none.
    pub fn type_called(&self, member: Member) -> Option<ValueType>
        ensures { result ≡ type_called (seen_scope self.now) member }
    {
        match member {
            Member::Reads(accessor) => accessor.value_type(),
            Member::Calls(attribute) if u32::from(attribute.0) < self.attributes.len() => {
                Some(ValueType::Of(self.attributes.attr(attribute).kind))
            }
            Member::Calls(_) => None,
        }
    }

    /// The list that a call with so many arguments gives, where the name means something.
    pub fn list_of(&self, member: Option<Member>, count: usize) -> Option<Accessor>
        ensures { result ≡ option_and_then (list_called count) member }
    {
        list_called(member?, count)
    }

    /// The type of what a call gives, where the name means something.
    pub fn type_of(&self, member: Option<Member>) -> Option<ValueType>
        ensures { result ≡ option_and_then (type_called (seen_scope self.now)) member }
    {
        self.type_called(member?)
    }
}
