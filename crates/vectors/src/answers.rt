// What a call answers: the refusal, or 0 and what it gives.
use refusal::Refusal;
use stream::print_number;

// show prints what the call gives.
pub fn print_answer<T, F: FnOnce(T)>(rt: &impl Print, answer: Result<T, Refusal>, show: F)
    requires { F.IsAlwaysCallable show }
{
    match answer {
        Ok(x) => {
            print_number(rt, 0);
            show(x);
        }
        Err(n) => print_number(rt, u32::from(n) as usize),
    }
}

pub fn print_numbers(rt: &impl Print, ns: &[usize]) {
    for n in ns {
        print_number(rt, *n);
    }
}
