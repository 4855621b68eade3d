//! From the number of loops of a nest to a const parameter.

/// Calls a function with a type parameter and a const parameter that is the number of loops, 1 to 6:
/// `by_depth!(depth, call(arguments))` is `Some(call::<_, depth>(arguments))`, and None for any other number.
#[macro_export]
macro_rules! by_depth {
    ($depth:expr, $call:ident($($argument:expr),* $(,)?)) => {
        match $depth {
            1 => Some($call::<_, 1>($($argument),*)),
            2 => Some($call::<_, 2>($($argument),*)),
            3 => Some($call::<_, 3>($($argument),*)),
            4 => Some($call::<_, 4>($($argument),*)),
            5 => Some($call::<_, 5>($($argument),*)),
            6 => Some($call::<_, 6>($($argument),*)),
            _ => None,
        }
    };
}
