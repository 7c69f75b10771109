//! The structure of each client. What is made for a client is made by one function over all structures.
pub use bucket_set::BucketSet;
pub use ellen_tree::EllenTree;
pub use harris_list::HarrisList;
pub use lin_report::Client;
pub use ms_queue::MsQueue;

/// The structure of the client `buckets`: a set over 32 lists.
pub type Buckets = BucketSet<32>;

/// Calls a function over all structures at the one of a client. Other types that it takes stand in brackets behind
/// its name.
macro_rules! at_client {
    ($client:expr, $call:ident[$($more:ident),*]($($argument:expr),*)) => {
        match $client {
            $crate::clients::Client::Queue => $call::<$crate::clients::MsQueue $(, $more)*>($($argument),*),
            $crate::clients::Client::List => $call::<$crate::clients::HarrisList $(, $more)*>($($argument),*),
            $crate::clients::Client::Tree => $call::<$crate::clients::EllenTree $(, $more)*>($($argument),*),
            $crate::clients::Client::Buckets => $call::<$crate::clients::Buckets $(, $more)*>($($argument),*),
        }
    };
}

pub(crate) use at_client;
