//! Laws of invocations, each the contract of a function that does nothing.

ghost use Rattle.command_line.specs.Examples.{AreInvocations, AreNone};
ghost use Rattle.command_line.specs.Laws.{InvocationOrNone, OneInvocation};

/// Arguments are at most one invocation.
pub fn one_invocation()
    ensures { OneInvocation }
{}

/// Arguments are an invocation, or they are none.
pub fn invocation_or_none()
    ensures { InvocationOrNone }
{}

/// Lists of arguments that are invocations, each with its numbers.
pub fn invocations()
    ensures { AreInvocations }
{}

/// Lists of arguments that are none.
pub fn no_invocations()
    ensures { AreNone }
{}
